ghost use Rattle.std.specs.Prelude.{◌≡◌, ◌≤◌, length, IfOk};
ghost use Rattle.wb_base.specs.Answering.{AsDefined};
ghost use Rattle.wb_metamodel.specs.Metamodel.{Metamodel};
ghost use Rattle.wb_viewpoint.specs.declared.tools.ToolKind.TheVariants as kind;
ghost use Rattle.wb_arguments.specs.Arguments.{Gives, bound, bound_by, connection, creation, deletion, direct_edit, dropped, named, needed, on, reconnection, short};
ghost use Rattle.wb_arguments.specs.Variables.{AreOf};

use crate::binding::{connected, created, deleted, dropped_to, edited, reconnected};
use crate::finding::{
    any_object, container_of, edge, element, element_object, end_of, object_of, place_object,
};
use crate::ground::Ground;
use crate::presence::are_wanted;
use crate::refusal::ArgumentRefusal;
use std::alloc::Global;
use wb_aql_eval::Env;
use wb_base::Text;
use wb_diagram::Arguments;
use wb_metamodel::ObjectId;
use wb_viewpoint::ToolKind;

const LONGEST_TEXT: usize = 65536;

/// The variables of a tool of a kind, and the first context.
pub fn bound(
    alloc: Global,
    ground: &Ground<'_>,
    kind: ToolKind,
    arguments: &Arguments,
) -> Result<(Env, ObjectId), ArgumentRefusal>
    ensures given { AsDefined named (bound (on ground.now) kind arguments.now) result }
    ensures are_of { (mm : Metamodel) → IfOk result (λ it. AreOf mm kind it.0) }
{
    if !are_wanted(kind, arguments) {
        return Err(ArgumentRefusal::BadArguments);
    }
    bound_by(alloc, ground, kind, arguments)
}

// The same where the arguments are those of the kind.
fn bound_by(
    alloc: Global,
    ground: &Ground<'_>,
    kind: ToolKind,
    arguments: &Arguments,
) -> Result<(Env, ObjectId), ArgumentRefusal>
    ensures given { AsDefined named (bound_by (on ground.now) kind arguments.now) result }
    ensures are_of { (mm : Metamodel) → IfOk result (λ it. AreOf mm kind it.0) }
{
    match kind {
        ToolKind::NodeCreation => creation(alloc, ground, arguments),
        ToolKind::EdgeCreation => connection(alloc, ground, arguments),
        ToolKind::Delete => deletion(alloc, ground, arguments),
        ToolKind::DirectEdit => direct_edit(alloc, ground, arguments),
        ToolKind::Reconnect => reconnection(alloc, ground, arguments),
        ToolKind::Drop => dropped(alloc, ground, arguments),
    }
}

#[tactic(auto, unfolding(crate::specs::Arguments::creation))]
fn creation(
    alloc: Global,
    ground: &Ground<'_>,
    arguments: &Arguments,
) -> Result<(Env, ObjectId), ArgumentRefusal>
    ensures given { AsDefined named (creation (on ground.now) arguments.now) result }
    ensures are_of { (mm : Metamodel) → IfOk result (λ it. AreOf mm kind.NodeCreation it.0) }
{
    let place = needed(&arguments.container)?;
    let container = place_object(ground, place)?;
    let env = created(alloc, container)?;
    Ok((env, container))
}

#[tactic(auto, unfolding(crate::specs::Arguments::connection))]
fn connection(
    alloc: Global,
    ground: &Ground<'_>,
    arguments: &Arguments,
) -> Result<(Env, ObjectId), ArgumentRefusal>
    ensures given { AsDefined named (connection (on ground.now) arguments.now) result }
    ensures are_of { (mm : Metamodel) → IfOk result (λ it. AreOf mm kind.EdgeCreation it.0) }
{
    let from = needed(&arguments.source)?;
    let to = needed(&arguments.target)?;
    let source = element_object(ground, from)?;
    let target = element_object(ground, to)?;
    let env = connected(alloc, source, target)?;
    Ok((env, source))
}

#[tactic(auto, unfolding(crate::specs::Arguments::deletion))]
fn deletion(
    alloc: Global,
    ground: &Ground<'_>,
    arguments: &Arguments,
) -> Result<(Env, ObjectId), ArgumentRefusal>
    ensures given { AsDefined named (deletion (on ground.now) arguments.now) result }
    ensures are_of { (mm : Metamodel) → IfOk result (λ it. AreOf mm kind.Delete it.0) }
{
    let key = needed(&arguments.element)?;
    let element = any_object(ground, key)?;
    let env = deleted(alloc, element)?;
    Ok((env, element))
}

#[tactic(auto, unfolding(crate::specs::Arguments::direct_edit))]
fn direct_edit(
    alloc: Global,
    ground: &Ground<'_>,
    arguments: &Arguments,
) -> Result<(Env, ObjectId), ArgumentRefusal>
    ensures given { AsDefined named (direct_edit (on ground.now) arguments.now) result }
    ensures are_of { (mm : Metamodel) → IfOk result (λ it. AreOf mm kind.DirectEdit it.0) }
{
    let key = needed(&arguments.element)?;
    let text = short(needed(&arguments.arg0)?)?;
    let element = any_object(ground, key)?;
    let env = edited(alloc, element, text)?;
    Ok((env, element))
}

#[tactic(auto, unfolding(crate::specs::Arguments::reconnection))]
fn reconnection(
    alloc: Global,
    ground: &Ground<'_>,
    arguments: &Arguments,
) -> Result<(Env, ObjectId), ArgumentRefusal>
    ensures given { AsDefined named (reconnection (on ground.now) arguments.now) result }
    ensures are_of { (mm : Metamodel) → IfOk result (λ it. AreOf mm kind.Reconnect it.0) }
{
    let key = needed(&arguments.element)?;
    let end = *needed(&arguments.end)?;
    let to = needed(needed(&arguments.to)?)?;
    let link = edge(ground, key)?;
    let new = element_object(ground, to)?;
    let old = object_of(ground, end_of(end, link));
    let env = reconnected(alloc, link.object, end, old, new)?;
    Ok((env, link.object))
}

#[tactic(auto, unfolding(crate::specs::Arguments::dropped))]
fn dropped(
    alloc: Global,
    ground: &Ground<'_>,
    arguments: &Arguments,
) -> Result<(Env, ObjectId), ArgumentRefusal>
    ensures given { AsDefined named (dropped (on ground.now) arguments.now) result }
    ensures are_of { (mm : Metamodel) → IfOk result (λ it. AreOf mm kind.Drop it.0) }
{
    let key = needed(&arguments.element)?;
    let place = needed(&arguments.to)?;
    let moved = element(ground, key)?;
    let container = place_object(ground, place)?;
    let old = container_of(ground, moved);
    let env = dropped_to(alloc, object_of(ground, moved), old, container)?;
    Ok((env, container))
}

// What must be there.
fn needed<T>(it: &Option<T>) -> Result<&T, ArgumentRefusal>
    ensures { Gives (λ x. x.now) (needed it.now) result }
{
    match it {
        Some(x) => Ok(x),
        None => Err(ArgumentRefusal::BadArguments),
    }
}

// A text of at most so many bytes.
fn short(text: &Text) -> Result<&Text, ArgumentRefusal>
    ensures given { Gives (λ it. it.now) (short text.now) result }
    ensures few { IfOk result (λ it. length it.now ≤ 65536) }
{
    if text.as_slice().len() > LONGEST_TEXT {
        return Err(ArgumentRefusal::BadArguments);
    }
    Ok(text)
}
