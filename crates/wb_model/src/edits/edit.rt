use wb_metamodel::{ClassId, FeatureId, ObjectId};
use wb_store::{Place, Scalar};

/// An edit with its arguments. `Model::edit` makes it.
#[derive(Drop)]
pub enum Edit {
    /// A new object of a class.
    Create {
        class: ClassId,
        place: Place,
    },
    /// The value alone, in the slot of a single plain feature.
    Set {
        object: ObjectId,
        feature: FeatureId,
        value: Scalar,
    },
    /// The value last, in the slot of a plain feature of many values.
    Add {
        object: ObjectId,
        feature: FeatureId,
        value: Scalar,
    },
    /// The value out of the slot of a plain feature of many values.
    Take {
        object: ObjectId,
        feature: FeatureId,
        value: Scalar,
    },
    /// All values out of the slot of a plain feature.
    Unset {
        object: ObjectId,
        feature: FeatureId,
    },
    /// The object last in a containment slot of another.
    MoveTo {
        object: ObjectId,
        container: ObjectId,
        feature: FeatureId,
    },
    /// The object and all that it contains.
    Remove {
        object: ObjectId,
    },
}
