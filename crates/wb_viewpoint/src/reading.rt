ghost use Rattle.std.specs.Prelude.{[]};
ghost use Rattle.serde_json.specs.View.{view};
ghost use Rattle.wb_base.specs.Answering.{AsDefined};
ghost use Rattle.wb_json.specs.Refusals.{code_at, coded, Refuses};
ghost use Rattle.wb_viewpoint.specs.declared.refusal.ViewpointCode.TheVariants.{BadShape};
ghost use Rattle.wb_viewpoint.specs.Reading.{content_of, read_text, limited, viewpoint};

use crate::content::Content;
use crate::diagrams::read_content;
use crate::limits::is_small;
use crate::refusal::ViewpointCode;
use crate::viewpoint::Viewpoint;
use std::alloc::Global;
use wb_base::Text;
use wb_json::{FileRefusal, Value, at_root, coded, parse_json};

/// The viewpoint that a JSON text is, or what is wrong with it first, and where.
#[tactic(auto, unfolding(crate::specs::Reading::viewpoint))]
pub fn read_viewpoint(alloc: Global, bytes: &[u8]) -> Result<Viewpoint, FileRefusal<ViewpointCode>>
    ensures { AsDefined code_at (viewpoint bytes.now) result }
{
    let content = read_text(alloc, bytes)?;
    limited(alloc, content)
}

#[tactic(auto, unfolding(crate::specs::Reading::read_text))]
fn read_text(alloc: Global, bytes: &[u8]) -> Result<Content, FileRefusal<ViewpointCode>>
    ensures { AsDefined code_at (read_text bytes.now) result }
{
    match parse_json(alloc, bytes)? {
        Some(value) => read_value(alloc, &value),
        None => Err(whole(alloc, ViewpointCode::BadJson)),
    }
}

fn read_value(alloc: Global, value: &Value) -> Result<Content, FileRefusal<ViewpointCode>>
    ensures { AsDefined code_at (coded BadShape (content_of (view value.now))) result }
{
    coded(alloc, ViewpointCode::BadShape, read_content(alloc, value))
}

/// The viewpoint of this content, where it is within all limits.
#[tactic(auto, unfolding(crate::specs::Reading::limited))]
fn limited(alloc: Global, content: Content) -> Result<Viewpoint, FileRefusal<ViewpointCode>>
    ensures { AsDefined code_at (limited content) result }
{
    if is_small(&content) {
        Ok(Viewpoint::new(content))
    } else {
        Err(whole(alloc, ViewpointCode::TooMany))
    }
}

/// The refusal of the whole text.
fn whole(alloc: Global, code: ViewpointCode) -> FileRefusal<ViewpointCode>
    ensures { Refuses code [] result }
{
    at_root(alloc, code, &Text::from_string(String::new(alloc)))
}
