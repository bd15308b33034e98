ghost use Rattle.std.specs.Prelude.{◌≡◌, ◌≤◌, length, IfOk};
ghost use Rattle.wb_picture.specs.Opening.{is_opened, opened, opening_layers};

use crate::switched::is_additional;
use std::alloc::{AllocError, Global};
use wb_base::List;
use wb_spec_check::CheckedViewpoint;
use wb_viewpoint::Layer;

/// The numbers of the layers beside the first that are active from the start.
#[tactic(auto, unfolding(crate::specs::Opening::opening_layers))]
pub fn opening_layers(alloc: Global, spec: &CheckedViewpoint) -> Result<List<u32>, AllocError>
    ensures { IfOk result (λ numbers. numbers ≡ opening_layers spec.now) }
{
    opened(alloc, layers_of(spec))
}

// The layers of a viewpoint are few enough to be numbered.
fn layers_of(spec: &CheckedViewpoint) -> &[Layer]
    ensures same { result.now ≡ spec.now.0.layers }
    ensures few { length result.now ≤ 64 }
{
    spec.viewpoint().content().layers.as_slice()
}

fn opened(alloc: Global, layers: &[Layer]) -> Result<List<u32>, AllocError>
    requires { length layers.now ≤ 64 }
    ensures { IfOk result (λ numbers. numbers ≡ opened layers.now) }
{
    let mut numbers = Vec::new(alloc);
    for (number, layer) in layers.iter().enumerate() {
        if is_opened(number, layer) {
            numbers.push(number as u32)?;
        }
    }
    Ok(List::from_vec(numbers))
}

// Is this layer beside the first declared active?
fn is_opened(number: usize, layer: &Layer) -> bool
    ensures { result ≡ is_opened (number, layer.now) }
{
    is_additional(number) && layer.active
}
