ghost use Rattle.std.specs.Prelude.{◌≡◌};

use wb_aql_values::{Answer, Reads, Value};
use wb_base::{List, Text};

/// Variables with their values: each name once, in any order, and one value for each.
pub struct Env {
    pub names: List<Text>,
    pub values: List<Value>,
}

impl Drop for Env {
    fn drop(self) {
        let Env {
            names: _names,
            values: _values,
        } = self;
    }
}

/// What an expression gives over a model, and the cells that it reads, in the order of first reading.
pub struct Outcome {
    pub answer: Answer,
    pub reads: Reads,
}

impl Outcome {
    /// The two parts, each for itself.
    pub fn into_parts(self) -> (Answer, Reads)
        ensures { result ≡ (self.answer, self.reads) }
    {
        let Outcome { answer, reads } = self;
        (answer, reads)
    }
}

impl Drop for Outcome {
    fn drop(self) {
        let Outcome {
            answer: _answer,
            reads: _reads,
        } = self;
    }
}
