//! Why no request is read.

/// Why a head, or the length of its body, is refused.
#[derive(Clone, Copy, Debug, PartialEq, Eq)]
pub enum HttpRefusal {
    /// 16,384 bytes hold no end of the head, or it has more than 66 lines.
    HeadTooLarge,
    /// The head is not of the grammar, or does not name its host as it should.
    BadHead,
    /// The body would come in another transfer encoding.
    NotImplemented,
    /// The length of the body stands more than once, or is not 1 to 10 digits.
    BadLength,
    /// A POST without the length of its body.
    LengthRequired,
    /// The body would have more than 1,048,576 bytes.
    BodyTooLarge,
}
