use wb_base::Text;

/// A sign or a reserved word.
#[derive(Clone, Copy, Debug, PartialEq, Eq)]
pub enum Sign {
    If,
    Then,
    Else,
    Endif,
    Let,
    In,
    And,
    Or,
    Xor,
    Implies,
    Not,
    Div,
    Null,
    True,
    False,
    Sequence,
    OrderedSet,
    Equal,
    NotEqual,
    Less,
    LessEqual,
    Greater,
    GreaterEqual,
    Plus,
    Minus,
    Times,
    Dot,
    Arrow,
    Colons,
    Comma,
    Bar,
    Open,
    Close,
    OpenBrace,
    CloseBrace,
}

/// A token of a text.
#[derive(Drop)]
pub enum Token {
    Sign(Sign),
    /// A name that is not reserved.
    Name(Text),
    Integer(u64),
    /// A text without its quotes, its escapes replaced.
    Quoted(Text),
    /// Where no token begins. No rule of the grammar takes it.
    Bad,
}
