ghost use Rattle.std.specs.Prelude.{◌≡◌, ◌++◌, IfOk, OnOk, codes, string_bytes};
ghost use Rattle.wb_session.specs.RefusalTexts.{edit_code, has_revision, members_before, place_member, refusal_code, refusal_text, revision_member, tool_code, tool_members};

use crate::refusal::Refusal;
use std::alloc::{AllocError, Global};
use wb_base::Text;
use wb_model::ModelRefusal;
use wb_refresh::fault_name;
use wb_tools::ToolRefusal;

/// The JSON text of a refusal at this revision.
#[tactic(auto, unfolding(crate::specs::RefusalTexts::refusal_text))]
pub fn write_refusal(alloc: Global, refusal: Refusal, revision: u64) -> Result<Text, AllocError>
    ensures { IfOk result (λ text. text ≡ refusal_text refusal revision) }
{
    let mut text = String::from_str(alloc, "{")?;
    push_before(&mut text, refusal)?;
    text.push_str("\"refusal\":\"")?;
    text.push_str(refusal_code(refusal))?;
    text.push_str("\"")?;
    push_revision(&mut text, has_revision(refusal), revision)?;
    text.push_str("}")?;
    Ok(Text::from_string(text))
}

// The members before the code.
fn push_before(text: &mut String, refusal: Refusal) -> Result<(), AllocError>
    ensures { OnOk result (string_bytes text.new ≡ string_bytes text.old ++ members_before refusal) }
{
    match refusal {
        Refusal::Tool(refusal) => push_tool(text, refusal),
        _ => Ok(()),
    }
}

fn push_tool(text: &mut String, refusal: ToolRefusal) -> Result<(), AllocError>
    ensures { OnOk result (string_bytes text.new ≡ string_bytes text.old ++ tool_members refusal) }
{
    match refusal {
        ToolRefusal::Evaluation(place, fault) => {
            push_cause(text, "\"fault\":\"", fault_name(fault))?;
            push_place(text, place)
        }
        ToolRefusal::Model(place, refusal) => {
            push_cause(text, "\"model\":\"", edit_code(refusal))?;
            push_place(text, place)
        }
        ToolRefusal::BadContext(place) => push_place(text, place),
        _ => Ok(()),
    }
}

// A member with a string.
fn push_cause(text: &mut String, member: &str, cause: &str) -> Result<(), AllocError>
    ensures { OnOk result (string_bytes text.new ≡ string_bytes text.old ++ member.now ++ cause.now ++ codes "\",") }
{
    text.push_str(member)?;
    text.push_str(cause)?;
    text.push_str("\",")?;
    Ok(())
}

fn push_place(text: &mut String, place: u32) -> Result<(), AllocError>
    ensures { OnOk result (string_bytes text.new ≡ string_bytes text.old ++ place_member place) }
{
    text.push_str("\"place\":")?;
    write!(text, "{}", place)?;
    text.push_str(",")?;
    Ok(())
}

fn push_revision(text: &mut String, has: bool, revision: u64) -> Result<(), AllocError>
    ensures { OnOk result (string_bytes text.new ≡ string_bytes text.old ++ revision_member has revision) }
{
    if has {
        text.push_str(",\"revision\":")?;
        write!(text, "{}", revision)?;
    }
    Ok(())
}

fn has_revision(refusal: Refusal) -> bool
    ensures { result ≡ has_revision refusal }
{
    match refusal {
        Refusal::Stale => true,
        _ => false,
    }
}

/// The code of a refusal.
pub fn refusal_code(refusal: Refusal) -> &'static str
    ensures { result.now ≡ refusal_code refusal }
{
    match refusal {
        Refusal::Stale => "stale",
        Refusal::RevisionsSpent => "revisions_spent",
        Refusal::UnknownObject => "unknown_object",
        Refusal::UnknownClass => "unknown_class",
        Refusal::UnknownFeature => "unknown_feature",
        Refusal::UnknownTool => "unknown_tool",
        Refusal::BadArguments => "bad_arguments",
        Refusal::UnknownElement => "unknown_element",
        Refusal::UnknownLayer => "unknown_layer",
        Refusal::UnknownFilter => "unknown_filter",
        Refusal::NotPlaceable => "not_placeable",
        Refusal::PositionOutOfRange => "position_out_of_range",
        Refusal::NotUnsynchronised => "not_unsynchronised",
        Refusal::NotCandidate => "not_candidate",
        Refusal::NothingToUndo => "nothing_to_undo",
        Refusal::NothingToRedo => "nothing_to_redo",
        Refusal::Tool(refusal) => tool_code(refusal),
        Refusal::Edit(refusal) => edit_code(refusal),
        Refusal::RootRemoved => "root_removed",
        Refusal::DiagramTooLarge => "diagram_too_large",
        Refusal::NoMemory => "no_memory",
    }
}

fn tool_code(refusal: ToolRefusal) -> &'static str
    ensures { result.now ≡ tool_code refusal }
{
    match refusal {
        ToolRefusal::PreconditionFalse => "precondition_false",
        ToolRefusal::Evaluation(_, _) => "evaluation",
        ToolRefusal::BadContext(_) => "bad_context",
        ToolRefusal::Model(_, _) => "model",
        ToolRefusal::ToolTooLong => "tool_too_long",
        ToolRefusal::NoMemory => "no_memory",
    }
}

fn edit_code(refusal: ModelRefusal) -> &'static str
    ensures { result.now ≡ edit_code refusal }
{
    match refusal {
        ModelRefusal::UnknownObject => "unknown_object",
        ModelRefusal::KindMismatch => "kind_mismatch",
        ModelRefusal::UpperBound => "upper_bound",
        ModelRefusal::ContainmentCycle => "containment_cycle",
        ModelRefusal::AbstractClass => "abstract_class",
        ModelRefusal::TooManyObjects => "too_many_objects",
        ModelRefusal::IdsSpent => "ids_spent",
        ModelRefusal::NoMemory => "no_memory",
    }
}
