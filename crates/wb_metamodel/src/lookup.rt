use wb_base::List;
use wb_ecore::{FeatureId, NumberedNames};

/// What a metamodel is looked up by.
pub struct Tables {
    /// For each pair of classes, whether a path of one or more supertypes leads from the first to the second.
    pub below: List<List<bool>>,
    pub class_features: List<List<FeatureId>>,
    pub class_names: NumberedNames,
    pub enum_names: NumberedNames,
    pub literal_names: List<NumberedNames>,
    /// The first place of each feature name.
    pub feature_names: NumberedNames,
    /// For each feature the first place of its name.
    pub feature_places: List<u32>,
    /// For each class and first place of a name, the feature of that name.
    pub features_by_name: List<List<Option<FeatureId>>>,
}

impl Drop for Tables {
    fn drop(self) {
        let Tables {
            below: _below,
            class_features: _class_features,
            class_names: _class_names,
            enum_names: _enum_names,
            literal_names: _literal_names,
            feature_names: _feature_names,
            feature_places: _feature_places,
            features_by_name: _features_by_name,
        } = self;
    }
}
