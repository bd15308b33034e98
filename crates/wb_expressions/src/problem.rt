ghost use Rattle.std.specs.Prelude.{◌≡◌};
ghost use Rattle.wb_expressions.specs.Codes.{code_name};

/// What is wrong with a part of a viewpoint.
#[derive(Clone, Copy, Debug, PartialEq, Eq)]
pub enum ProblemCode {
    DuplicateName,
    UnknownClass,
    UnknownMapping,
    UnknownLayer,
    MappingReused,
    BadChild,
    BadEnds,
    /// An expression has no known prefix, or no name where one is due.
    BadPrefix,
    /// A token of an expression cannot go on, or its text ends too soon.
    Syntax,
    /// An expression has one opening, or one lambda, too many.
    TooDeep,
    UnknownVariable,
    UnknownFeature,
    UnknownService,
    WrongArity,
    UnknownType,
    BadOperation,
}

impl ProblemCode {
    /// The word of a code, as it is printed.
    pub fn name(self) -> &'static str
        ensures { result.now ≡ code_name self }
    {
        match self {
            ProblemCode::DuplicateName => "DuplicateName",
            ProblemCode::UnknownClass => "UnknownClass",
            ProblemCode::UnknownMapping => "UnknownMapping",
            ProblemCode::UnknownLayer => "UnknownLayer",
            ProblemCode::MappingReused => "MappingReused",
            ProblemCode::BadChild => "BadChild",
            ProblemCode::BadEnds => "BadEnds",
            ProblemCode::BadPrefix => "BadPrefix",
            ProblemCode::Syntax => "Syntax",
            ProblemCode::TooDeep => "TooDeep",
            ProblemCode::UnknownVariable => "UnknownVariable",
            ProblemCode::UnknownFeature => "UnknownFeature",
            ProblemCode::UnknownService => "UnknownService",
            ProblemCode::WrongArity => "WrongArity",
            ProblemCode::UnknownType => "UnknownType",
            ProblemCode::BadOperation => "BadOperation",
        }
    }
}
