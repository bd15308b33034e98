use wb_metamodel::{FeatureId, ObjectId};

/// A link from a container to an object that it contains.
#[derive(Clone, Copy, PartialEq, Eq)]
pub struct Link {
    pub container: ObjectId,
    pub feature: FeatureId,
    pub object: ObjectId,
}
