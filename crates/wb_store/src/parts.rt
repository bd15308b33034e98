use crate::scalars::Scalar;
use wb_base::List;
use wb_metamodel::{ClassId, FeatureId, ObjectId};

/// A slot of a model that is to be built.
#[derive(Drop)]
pub struct SlotPart {
    pub feature: FeatureId,
    /// Are the values written as a list?
    pub listed: bool,
    pub values: List<Scalar>,
}

/// An object of a model that is to be built.
#[derive(Drop)]
pub struct Part {
    pub id: ObjectId,
    pub class: ClassId,
    pub slots: List<SlotPart>,
}
