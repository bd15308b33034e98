ghost use Rattle.std.specs.Prelude.{◌≡◌, IfOk};
ghost use Rattle.wb_metamodel.specs.Metamodel.{Metamodel};
ghost use Rattle.wb_answers.specs.Seen.{Told};
ghost use Rattle.wb_picture.specs.Picture.{served};
ghost use Rattle.wb_picture.specs.Views.{AreGrounded, AreTold, CanBeWritten, declarations_of, scene_of};

use crate::names::mapping_names;
use crate::pictures::picture;
use crate::views::{Declared, View};
use std::alloc::{AllocError, Global};
use wb_base::Text;
use wb_diagram::write_diagram;
use wb_spec_check::CheckedViewpoint;

/// The JSON text of the picture.
#[tactic(auto, unfolding(crate::specs::Picture::served))]
pub fn served(
    alloc: Global,
    spec: &CheckedViewpoint,
    declared: &Declared<'_>,
    view: &View<'_>,
) -> Result<Text, AllocError>
    requires grounded { AreGrounded declared.now }
    requires writable { CanBeWritten spec.now declared.now }
    ensures { (mm : Metamodel) → (told : Told) → AreTold spec.now mm told declared.now
        → IfOk result (λ text. text ≡ served (scene_of spec.now mm told view.now) (declarations_of declared.now) view.now.revision) }
{
    let names = mapping_names(alloc, spec.viewpoint().content())?;
    let diagram = picture(alloc, spec, declared, view)?;
    write_diagram(alloc, &diagram, names.as_slice())
}
