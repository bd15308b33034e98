ghost use Rattle.std.specs.Prelude.{◌≡◌, ◌<◌, length};

use std::alloc::Global;
use std::marker::Model;
use wb_base::List;
use wb_json::{Form, Name, Value, Wrong, listed, needed, optional};

/// A layer of a diagram, and whether it is shown from the start. The first layer always is.
#[derive(Drop)]
pub struct Layer {
    pub name: Name,
    pub active: bool,
}

/// The layers of a diagram: at least one.
#[derive(Drop)]
pub struct Layers {
    layers: List<Layer>,
}

impl Model for Layers {
    ghost use Rattle.std.specs.Prelude.{List, ◌<◌, length};
    ghost use Rattle.wb_viewpoint.specs.declared.layers.Layer.{Layer};

    ghost Value = { List Layer };

    ghost view = { λ l. l.layers };

    ghost invariant = { λ l. 0 < length l.layers };
}

impl Layers {
    pub(crate) fn new(layers: List<Layer>) -> Layers
        requires { 0 < length layers }
        ensures { result ≡ layers }
    {
        Layers { layers }
    }

    pub fn as_slice(&self) -> &[Layer]
        ensures same { result.now ≡ self.now }
        ensures some { 0 < length result.now }
    {
        self.layers.as_slice()
    }
}

impl Form for Layer {
    ghost use Rattle.wb_viewpoint.specs.Forms.{layer_of};

    ghost form = { layer_of };

    #[tactic(auto, unfolding(crate::specs::Forms::layer_of))]
    fn read(alloc: Global, value: &Value) -> Result<Layer, Wrong> {
        listed(alloc, value, &["name", "active"])?;
        let name = needed(alloc, value, "name")?;
        let active = optional(alloc, value, "active")?;
        Ok(Layer {
            name,
            active: active.unwrap_or(false),
        })
    }
}

impl Form for Layers {
    ghost use Rattle.wb_viewpoint.specs.Forms.{layers_of};

    ghost form = { layers_of };

    #[tactic(auto, unfolding(crate::specs::Forms::layers_of))]
    fn read(alloc: Global, value: &Value) -> Result<Layers, Wrong> {
        let layers: List<Layer> = List::read(alloc, value)?;
        if layers.is_empty() {
            return Err(Wrong::here(alloc));
        }
        Ok(Layers::new(layers))
    }
}
