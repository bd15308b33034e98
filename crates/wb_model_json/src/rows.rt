use wb_base::List;
use wb_metamodel::{ClassId, FeatureId};
use wb_model::Scalar;

/// One object of a model by itself.
#[derive(Drop)]
pub struct ObjectRow {
    pub class: ClassId,
    pub slots: List<RowSlot>,
}

/// A slot that is not empty.
#[derive(Drop)]
pub struct RowSlot {
    pub feature: FeatureId,
    pub values: List<Scalar>,
}
