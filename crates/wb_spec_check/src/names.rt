ghost use Rattle.std.specs.Prelude.{◌≡◌, ℕ, List, [], IfOk, map, take};
ghost use Rattle.wb_viewpoint.specs.declared.layers.Layer.{Layer};
ghost use Rattle.wb_viewpoint.specs.declared.mappings.Mapping.{Mapping};
ghost use Rattle.wb_viewpoint.specs.declared.mappings.MappingForm.{MappingForm};
ghost use Rattle.wb_aql_check.specs.Names.{is_feature};
ghost use Rattle.wb_spec_check.specs.Findings.{class_found, made_class, feature_found, reference_found, layer_found, mapping_found, end_found, is_containment_name, is_edge_form};
ghost use Rattle.wb_spec_check.specs.Scopes.{own_scope, container_scope};
ghost use Rattle.wb_spec_check.specs.invariants.Findings.{Finds};
ghost use Rattle.wb_spec_check.specs.invariants.Known.{Numbers, HasNames, place_in};

use crate::own_names::numbered;
use crate::scope_texts::scope_of;
use std::alloc::{AllocError, Global};
use std::marker::Model;
use wb_base::{List, Text};
use wb_ecore::NumberedNames;
use wb_expressions::ProblemCode;
use wb_metamodel::{ClassId, FeatureId, Metamodel};
use wb_viewpoint::{Content, MappingForm};

/// What names are looked up in. Contracts see the metamodel and what the viewpoint says.
pub(crate) struct Names<'a> {
    metamodel: &'a Metamodel,
    content: &'a Content,
    layers: NumberedNames,
    mappings: NumberedNames,
    /// The names of all features, and those of containment references.
    features: NumberedNames,
    containments: NumberedNames,
    /// The scopes of expressions outside tools.
    self_alone: List<Text>,
    with_container: List<Text>,
}

impl<'a> Drop for Names<'a> {
    fn drop(self) {
        let Names {
            metamodel: _,
            content: _,
            layers: _layers,
            mappings: _mappings,
            features: _features,
            containments: _containments,
            self_alone: _self_alone,
            with_container: _with_container,
        } = self;
    }
}

impl<'a> Model for Names<'a> {
    ghost use Rattle.std.specs.Prelude.{◌≡◌};
    ghost use Rattle.std.specs.Coded.{coded×};
    ghost use Rattle.wb_metamodel.specs.Metamodel.{Metamodel};
    ghost use Rattle.wb_viewpoint.specs.declared.content.Content.{Content};
    ghost use Rattle.wb_viewpoint.specs.contracts.content.Content as content_row;
    ghost use Rattle.wb_ecore.specs.contracts.packages.Package as package_row;
    ghost use Rattle.wb_spec_check.specs.Scopes.{own_scope, container_scope};
    ghost use Rattle.wb_spec_check.specs.invariants.Known.{AreKnown};

    ghost Value = { Metamodel × Content };

    ghost coded = { coded× package_row.the_row.coded content_row.the_row.coded };

    ghost view = { λ n. (n.metamodel.now, n.content.now) };

    ghost invariant = { λ n. AreKnown n.metamodel.now n.content.now n.layers n.mappings n.features n.containments × ((n.self_alone ≡ own_scope) × (n.with_container ≡ container_scope)) };
}

/// The names of all features.
fn feature_names(alloc: Global, metamodel: &Metamodel) -> Result<NumberedNames, AllocError>
    ensures { IfOk result (λ names. HasNames names (is_feature metamodel.now)) }
{
    let mut names = NumberedNames::new(alloc);
    for number in 0..metamodel.feature_count() {
        names.add(
            alloc,
            metamodel.feature(FeatureId(number)).name.as_slice(),
            number,
        )?;
    }
    Ok(names)
}

/// The names of all containment references.
fn containment_names(alloc: Global, metamodel: &Metamodel) -> Result<NumberedNames, AllocError>
    ensures { IfOk result (λ names. HasNames names (is_containment_name metamodel.now)) }
{
    let mut names = NumberedNames::new(alloc);
    for number in 0..metamodel.feature_count() {
        let feature = metamodel.feature(FeatureId(number));
        if feature.containment {
            names.add(alloc, feature.name.as_slice(), number)?;
        }
    }
    Ok(names)
}

/// Does a mapping of this form make edges?
fn is_edge(form: &MappingForm) -> bool
    ensures { result ≡ is_edge_form form.now }
{
    match form {
        MappingForm::Node(_) => false,
        MappingForm::Edge(_) => true,
    }
}

impl<'a> Names<'a> {
    pub(crate) fn new(
        alloc: Global,
        metamodel: &'a Metamodel,
        content: &'a Content,
    ) -> Result<Names<'a>, AllocError>
        ensures { IfOk result (λ names. names ≡ (metamodel.now, content.now)) }
    {
        let layers = numbered(alloc, content.layers.as_slice())?;
        let mappings = numbered(alloc, content.mappings.as_slice())?;
        let features = feature_names(alloc, metamodel)?;
        let containments = containment_names(alloc, metamodel)?;
        let self_alone = scope_of(alloc, &["self"])?;
        let with_container = scope_of(alloc, &["self", "container"])?;
        Ok(Names {
            metamodel,
            content,
            layers,
            mappings,
            features,
            containments,
            self_alone,
            with_container,
        })
    }

    pub(crate) fn metamodel(&self) -> &'a Metamodel
        ensures { result.now ≡ self.now.0 }
    {
        self.metamodel
    }

    pub(crate) fn content(&self) -> &'a Content
        ensures { result.now ≡ self.now.1 }
    {
        self.content
    }

    pub(crate) fn class(&self, name: &str) -> Result<ClassId, ProblemCode>
        ensures { Finds name.now result (class_found self.now.0 name.now) }
    {
        match self.metamodel.class_named(name.as_bytes()) {
            Some(class) => Ok(class),
            None => Err(ProblemCode::UnknownClass),
        }
    }

    /// A class of which objects can be made.
    #[tactic(auto, unfolding(crate::specs::Findings::made_class))]
    pub(crate) fn made_class(&self, name: &str) -> Result<ClassId, ProblemCode>
        ensures { Finds name.now result (made_class self.now.0 name.now) }
    {
        match self.metamodel.class_named(name.as_bytes()) {
            Some(class) => {
                if self.metamodel.is_abstract(class) {
                    Err(ProblemCode::BadOperation)
                } else {
                    Ok(class)
                }
            }
            None => Err(ProblemCode::UnknownClass),
        }
    }

    /// A feature that some class has.
    pub(crate) fn feature(&self, name: &str) -> Result<(), ProblemCode>
        ensures { Finds name.now result (feature_found self.now.0 name.now) }
    {
        if self.features.get(name.as_bytes()).is_some() {
            Ok(())
        } else {
            Err(ProblemCode::BadOperation)
        }
    }

    /// A containment reference that some class has.
    pub(crate) fn reference(&self, name: &str) -> Result<(), ProblemCode>
        ensures { Finds name.now result (reference_found self.now.0 name.now) }
    {
        if self.containments.get(name.as_bytes()).is_some() {
            Ok(())
        } else {
            Err(ProblemCode::BadOperation)
        }
    }

    pub(crate) fn layer(&self, name: &str) -> Result<u32, ProblemCode>
        ensures { Finds name.now result (layer_found self.now.1 name.now) }
    {
        match self.layers.get(name.as_bytes()) {
            Some(layer) => Ok(layer),
            None => Err(ProblemCode::UnknownLayer),
        }
    }

    pub(crate) fn mapping(&self, name: &str) -> Result<u32, ProblemCode>
        ensures { Finds name.now result (mapping_found self.now.1 name.now) }
    {
        match self.mappings.get(name.as_bytes()) {
            Some(mapping) => Ok(mapping),
            None => Err(ProblemCode::UnknownMapping),
        }
    }

    /// A mapping at whose elements an edge may begin or end.
    #[tactic(auto, unfolding(crate::specs::Findings::end_found))]
    pub(crate) fn end(&self, name: &str) -> Result<u32, ProblemCode>
        ensures { Finds name.now result (end_found self.now.1 name.now) }
    {
        let number = self.mapping(name)?;
        match self.content.mappings.as_slice().get(number as usize) {
            Some(mapping) if is_edge(&mapping.form) => Err(ProblemCode::BadEnds),
            _ => Ok(number),
        }
    }

    /// The first place of each layer's name.
    pub(crate) fn layer_places(&self) -> &NumberedNames
        ensures { Numbers result.now (place_in (map (λ (it : Layer). it.name) self.now.1.layers)) }
    {
        &self.layers
    }

    /// The first place of each mapping's name.
    pub(crate) fn mapping_places(&self) -> &NumberedNames
        ensures { Numbers result.now (place_in (map (λ (it : Mapping). it.name) self.now.1.mappings)) }
    {
        &self.mappings
    }

    pub(crate) fn self_alone(&self) -> &[Text]
        ensures { result.now ≡ own_scope }
    {
        self.self_alone.as_slice()
    }

    pub(crate) fn with_container(&self) -> &[Text]
        ensures { result.now ≡ container_scope }
    {
        self.with_container.as_slice()
    }
}
