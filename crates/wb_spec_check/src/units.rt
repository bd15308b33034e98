ghost use Rattle.std.specs.Prelude.{◌≡◌, option_and_then};
ghost use Rattle.std.specs.Option.{option_copied};
ghost use Rattle.wb_spec_check.specs.Units.{mapping_of, source_of_form, candidates_of_form, target_of_form, candidates_of, precondition_of, source_of, target_of, style_of, label_of_looks, when_of, label_of, hides_of, last_pair, mapping_of_key, expression_of};

use crate::checked_looks::{CheckedLooks, CheckedStyle};
use crate::checked_mappings::{CheckedForm, CheckedMapping, CheckedSource};
use crate::checked_viewpoint::CheckedViewpoint;
use wb_diagram::{AnyKey, Key, Unit};
use wb_expressions::Checked;

impl CheckedViewpoint {
    /// The expression of a unit; none where the viewpoint has no such mapping, style or filter, or that one declares
    /// none.
    #[tactic(auto, unfolding(crate::specs::Units::expression_of))]
    pub fn expression_of(&self, unit: &Unit) -> Option<&Checked>
        ensures { option_copied result ≡ expression_of self.now unit.now }
    {
        match unit {
            Unit::Candidates { mapping, .. } => self.candidates(*mapping),
            Unit::Precondition { key } => self.precondition_at(key),
            Unit::EdgeCandidates { mapping } => self.candidates(*mapping),
            Unit::EdgePrecondition { pair } => self.precondition(pair.mapping),
            Unit::Source { pair } => self.source(pair.mapping),
            Unit::Target { pair } => self.target(pair.mapping),
            Unit::Style { style, key } => self.when(*style, key),
            Unit::Label { style, key } => self.label(*style, key),
            Unit::Filter { filter, .. } => self.hides(*filter),
        }
    }

    fn mapping(&self, number: u32) -> Option<&CheckedMapping>
        ensures { option_copied result ≡ mapping_of self.now number }
    {
        self.parts().mappings.as_slice().get(number as usize)
    }

    fn candidates(&self, mapping: u32) -> Option<&Checked>
        ensures { option_copied result ≡ candidates_of self.now mapping }
    {
        candidates_of_form(&self.mapping(mapping)?.form)
    }

    fn precondition(&self, mapping: u32) -> Option<&Checked>
        ensures { option_copied result ≡ precondition_of self.now mapping }
    {
        self.mapping(mapping)?.precondition.as_ref()
    }

    fn precondition_at(&self, key: &Key) -> Option<&Checked>
        ensures { option_copied result ≡ option_and_then (precondition_of self.now) (mapping_of_key (AnyKey.Node key.now)) }
    {
        self.precondition(mapping_of_node(key)?)
    }

    fn source(&self, mapping: u32) -> Option<&Checked>
        ensures { option_copied result ≡ source_of self.now mapping }
    {
        match source_of_form(&self.mapping(mapping)?.form) {
            Some(source) => Some(&source.source_finder),
            None => None,
        }
    }

    fn target(&self, mapping: u32) -> Option<&Checked>
        ensures { option_copied result ≡ target_of self.now mapping }
    {
        target_of_form(&self.mapping(mapping)?.form)
    }

    fn when(&self, style: u32, key: &AnyKey) -> Option<&Checked>
        ensures { option_copied result ≡ option_and_then (when_of self.now style) (mapping_of_key key.now) }
    {
        let mapping = self.mapping(mapping_of_key(key)?)?;
        match style_of(&mapping.looks, style) {
            Some(style) => Some(&style.when),
            None => None,
        }
    }

    fn label(&self, style: u32, key: &AnyKey) -> Option<&Checked>
        ensures { option_copied result ≡ option_and_then (label_of self.now style) (mapping_of_key key.now) }
    {
        let mapping = self.mapping(mapping_of_key(key)?)?;
        label_of_looks(&mapping.looks, style)
    }

    fn hides(&self, filter: u32) -> Option<&Checked>
        ensures { option_copied result ≡ hides_of self.now filter }
    {
        match self.parts().filters.as_slice().get(filter as usize) {
            Some(filter) => Some(&filter.hides),
            None => None,
        }
    }
}

fn candidates_of_form(form: &CheckedForm) -> Option<&Checked>
    ensures { option_copied result ≡ candidates_of_form form.now }
{
    match form {
        CheckedForm::Node(node) => Some(&node.objects.candidates),
        CheckedForm::Edge(edge) => match &edge.object_edge {
            Some(source) => Some(&source.objects.candidates),
            None => None,
        },
    }
}

/// What an edge has that stands for objects.
fn source_of_form(form: &CheckedForm) -> Option<&CheckedSource>
    ensures { option_copied result ≡ source_of_form form.now }
{
    match form {
        CheckedForm::Node(_) => None,
        CheckedForm::Edge(edge) => edge.object_edge.as_ref(),
    }
}

fn target_of_form(form: &CheckedForm) -> Option<&Checked>
    ensures { option_copied result ≡ target_of_form form.now }
{
    match form {
        CheckedForm::Node(_) => None,
        CheckedForm::Edge(edge) => Some(&edge.target_finder),
    }
}

/// The conditional style of a number, counted from 1.
fn style_of(looks: &CheckedLooks, style: u32) -> Option<&CheckedStyle>
    ensures { option_copied result ≡ style_of looks.now style }
{
    let place = style.checked_sub(1)?;
    looks.styles.as_slice().get(place as usize)
}

/// The label of a style: 0 is the default style.
fn label_of_looks(looks: &CheckedLooks, style: u32) -> Option<&Checked>
    ensures { option_copied result ≡ label_of_looks looks.now style }
{
    if style == 0 {
        return looks.label.as_ref();
    }
    style_of(looks, style)?.label.as_ref()
}

/// The mapping at the end of a key.
fn mapping_of_node(key: &Key) -> Option<u32>
    ensures { result ≡ mapping_of_key (AnyKey.Node key.now) }
{
    match key.pairs.as_slice().last() {
        Some(pair) => Some(pair.mapping),
        None => None,
    }
}

fn mapping_of_key(key: &AnyKey) -> Option<u32>
    ensures { result ≡ mapping_of_key key.now }
{
    match key {
        AnyKey::Node(key) => mapping_of_node(key),
        AnyKey::Edge(key) => Some(key.mapping),
    }
}
