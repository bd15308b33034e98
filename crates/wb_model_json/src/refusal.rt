ghost use Rattle.std.specs.Prelude.{◌≡◌};
ghost use Rattle.wb_model_json.specs.Refusals.{broken_code};

use wb_json::FileRefusal;

/// What is wrong with a model's text.
#[derive(Clone, Copy, Debug, PartialEq, Eq)]
pub enum ModelCode {
    BadJson,
    BadShape,
    TooMany,
    DuplicateObject,
    UnknownName,
    /// `next` and the numbers of objects.
    Broken1,
    /// An object of an abstract class.
    Broken2,
    /// A slot of a feature that the object's class lacks.
    Broken3,
    /// A slot with more values than its feature has room for, or not written as it is to be.
    Broken4,
    /// A value of another kind, or an object that is not live.
    Broken5,
    /// A value that stands twice in a slot.
    Broken6,
    /// An object that does not hold back the one that holds it.
    Broken7,
    /// An object in two containment slots.
    Broken8,
    /// An object that contains itself.
    Broken9,
    /// The roots.
    Broken10,
}

/// Why there is no model.
pub type ModelFileRefusal = FileRefusal<ModelCode>;

/// The code of a condition of a valid model, by its number from 1 to 10.
pub fn broken_code(number: u8) -> ModelCode
    ensures { result ≡ broken_code number }
{
    match number {
        1 => ModelCode::Broken1,
        2 => ModelCode::Broken2,
        3 => ModelCode::Broken3,
        4 => ModelCode::Broken4,
        5 => ModelCode::Broken5,
        6 => ModelCode::Broken6,
        7 => ModelCode::Broken7,
        8 => ModelCode::Broken8,
        9 => ModelCode::Broken9,
        _ => ModelCode::Broken10,
    }
}
