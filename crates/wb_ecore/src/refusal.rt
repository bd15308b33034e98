ghost use Rattle.std.specs.Prelude.{◌≡◌};
ghost use Rattle.wb_ecore.specs.Codes.{code_number};

use wb_json::FileRefusal;

/// What is wrong with a metamodel's text.
#[derive(Clone, Copy, Debug, PartialEq, Eq)]
pub enum MetamodelCode {
    BadJson = 1,
    BadShape = 2,
    DuplicateName = 3,
    UnknownName = 4,
    SupertypeCycle = 5,
    OppositeMismatch = 6,
    TooMany = 7,
}

impl MetamodelCode {
    /// The number of the code, from 1 to 7.
    pub fn number(self) -> u8
        ensures { result ≡ code_number self }
    {
        self as u8
    }
}

/// Why there is no metamodel.
pub type MetamodelRefusal = FileRefusal<MetamodelCode>;
