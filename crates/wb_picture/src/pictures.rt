ghost use Rattle.std.specs.Prelude.{◌≡◌, IfOk};
ghost use Rattle.wb_metamodel.specs.Metamodel.{Metamodel};
ghost use Rattle.wb_diagram.specs.Diagrams.{IsWritableDiagram};
ghost use Rattle.wb_answers.specs.Seen.{Told};
ghost use Rattle.wb_picture.specs.Picture.{mapping_names, picture};
ghost use Rattle.wb_picture.specs.Views.{AreGrounded, AreTold, CanBeWritten, declarations_of, scene_of};
ghost use Rattle.wb_picture.specs.invariants.Drawn.{diagram_with};

use crate::copies::copy_of_problems;
use crate::drawing::{behind, edges, elements};
use crate::keys::all_keys;
use crate::switched::{active_filters, active_layers};
use crate::views::{Declared, View};
use std::alloc::{AllocError, Global};
use wb_diagram::Diagram;
use wb_looks::visible;
use wb_spec_check::CheckedViewpoint;
use wb_viewpoint::Content;

/// The picture of what is declared: what is visible of it, and what is switched on.
pub fn picture(
    alloc: Global,
    spec: &CheckedViewpoint,
    declared: &Declared<'_>,
    view: &View<'_>,
) -> Result<Diagram, AllocError>
    requires grounded { AreGrounded declared.now }
    ensures picture { (mm : Metamodel) → (told : Told) → AreTold spec.now mm told declared.now
        → IfOk result (λ it. it ≡ picture (scene_of spec.now mm told view.now) (declarations_of declared.now) view.now.revision) }
    ensures writable { CanBeWritten spec.now declared.now → IfOk result (IsWritableDiagram (mapping_names spec.now.0)) }
{
    let keys = all_keys(alloc, declared.nodes, declared.edges)?;
    let flags = visible(
        alloc,
        spec,
        keys.as_slice(),
        declared.filtered,
        &view.switches,
    )?;
    let content = spec.viewpoint().content();
    diagram_with(alloc, content, declared, view, flags.as_slice())
}

// The picture with these flags, which go by key as the looks do.
#[tactic(auto, unfolding(crate::specs::invariants::Drawn::diagram_with))]
fn diagram_with(
    alloc: Global,
    content: &Content,
    declared: &Declared<'_>,
    view: &View<'_>,
    flags: &[bool],
) -> Result<Diagram, AllocError>
    ensures { IfOk result (λ it. it ≡ diagram_with content.now declared.now view.now flags.now) }
{
    let count = declared.nodes.len();
    Ok(Diagram {
        elements: elements(alloc, view.layout, declared.nodes, declared.looks, flags)?,
        edges: edges(
            alloc,
            declared.edges,
            behind(declared.looks, count),
            behind(flags, count),
        )?,
        filters: active_filters(alloc, view.switches.filters, content)?,
        layers: active_layers(alloc, view.switches.layers, content)?,
        problems: copy_of_problems(alloc, declared.problems)?,
        revision: view.revision,
    })
}
