ghost use Rattle.std.specs.Prelude.{◌≡◌, ◌<◌, ◌≤◌, length, position, IfSome};
ghost use Rattle.wb_base.specs.Names.{same_name};
ghost use Rattle.wb_viewpoint.specs.declared.filters.Filter.{Filter};
ghost use Rattle.wb_viewpoint.specs.declared.layers.Layer.{Layer};
ghost use Rattle.wb_viewpoint.specs.declared.mappings.Mapping.{Mapping};
ghost use Rattle.wb_targets.specs.Targets.{additional_layer_named, beside_first, filter_named, mapping_named};

use wb_json::Name;
use wb_spec_check::CheckedViewpoint;
use wb_viewpoint::{Filter, Layer, Mapping};

/// The number of the layer of this name; none where it is the first layer, or no layer has the name.
#[tactic(auto, unfolding(crate::specs::Targets::additional_layer_named))]
pub fn additional_layer_named(spec: &CheckedViewpoint, name: &str) -> Option<u32>
    ensures { result ≡ additional_layer_named spec.now name.now }
{
    let found = number(layer_place(layers_of(spec), name))?;
    beside_first(found)
}

/// The number of the filter of this name.
#[tactic(auto, unfolding(crate::specs::Targets::filter_named))]
pub fn filter_named(spec: &CheckedViewpoint, name: &str) -> Option<u32>
    ensures { result ≡ filter_named spec.now name.now }
{
    number(filter_place(filters_of(spec), name))
}

/// The number of the mapping of this name.
#[tactic(auto, unfolding(crate::specs::Targets::mapping_named))]
pub fn mapping_named(spec: &CheckedViewpoint, name: &str) -> Option<u32>
    ensures { result ≡ mapping_named spec.now name.now }
{
    number(mapping_place(mappings_of(spec), name))
}

// A number other than that of the first.
fn beside_first(number: u32) -> Option<u32>
    ensures { result ≡ beside_first number }
{
    if number == 0 { None } else { Some(number) }
}

fn layers_of(spec: &CheckedViewpoint) -> &[Layer]
    ensures same { result.now ≡ spec.now.0.layers }
    ensures few { length result.now ≤ 64 }
{
    spec.viewpoint().content().layers.as_slice()
}

fn filters_of(spec: &CheckedViewpoint) -> &[Filter]
    ensures same { result.now ≡ spec.now.0.filters }
    ensures few { length result.now ≤ 64 }
{
    spec.viewpoint().content().filters.as_slice()
}

fn mappings_of(spec: &CheckedViewpoint) -> &[Mapping]
    ensures same { result.now ≡ spec.now.0.mappings }
    ensures few { length result.now ≤ 256 }
{
    spec.viewpoint().content().mappings.as_slice()
}

fn layer_place(layers: &[Layer], name: &str) -> Option<usize>
    ensures { result ≡ position (λ (it : Layer). same_name it.name name.now) layers.now }
{
    layers.iter().position(|layer| is_name(&layer.name, name))
}

fn filter_place(filters: &[Filter], name: &str) -> Option<usize>
    ensures { result ≡ position (λ (it : Filter). same_name it.name name.now) filters.now }
{
    filters
        .iter()
        .position(|filter| is_name(&filter.name, name))
}

fn mapping_place(mappings: &[Mapping], name: &str) -> Option<usize>
    ensures { result ≡ position (λ (it : Mapping). same_name it.name name.now) mappings.now }
{
    mappings
        .iter()
        .position(|mapping| is_name(&mapping.name, name))
}

fn is_name(name: &Name, text: &str) -> bool
    ensures { result ≡ same_name name.now text.now }
{
    name.as_str().as_bytes() == text.as_bytes()
}

// A place among few, if one was found.
fn number(place: Option<usize>) -> Option<u32>
    requires { IfSome place (λ it. it < 256) }
    ensures { result ≡ place }
{
    match place {
        Some(place) => Some(place as u32),
        None => None,
    }
}
