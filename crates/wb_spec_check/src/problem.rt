use wb_base::Text;
use wb_expressions::ProblemCode;

/// What is wrong at a place of a viewpoint.
#[derive(Debug)]
pub struct Problem {
    /// `#` and a JSON Pointer (RFC 6901).
    pub place: Text,
    pub code: ProblemCode,
    /// A name, or the offset in the text of an expression; empty where the code says all.
    pub detail: Text,
}

impl Drop for Problem {
    fn drop(self) {
        let Problem {
            place: _place,
            code: _,
            detail: _detail,
        } = self;
    }
}
