ghost use Rattle.std.specs.Prelude.{◌≡◌, IfOk, OnOk};
ghost use Rattle.wb_rows.specs.States.{CanBeWritten, mark_rows, rows_of, state_of};
ghost use Rattle.wb_rows.specs.Texts.{Ascend, with_rows};

use crate::heads::put_heads;
use crate::marked::{put_hidden, put_shown};
use crate::objects::put_objects;
use crate::positions::put_positions;
use crate::row_map::RowMap;
use crate::state::StateParts;
use crate::switched::{put_filters, put_layers};
use std::alloc::{AllocError, Global};
use wb_base::List;
use wb_marks::Marks;
use wb_outer::Row;
use wb_spec_check::CheckedViewpoint;
use wb_viewpoint::Content;

/// The rows of a state, ascending by key.
#[tactic(auto, unfolding(crate::specs::States::rows_of))]
pub fn write_rows(
    alloc: Global,
    state: &StateParts,
    spec: &CheckedViewpoint,
) -> Result<List<Row>, AllocError>
    requires { CanBeWritten state.now.marks.now }
    ensures rows { IfOk result (λ rows. rows ≡ rows_of spec.now (state_of state.now)) }
    ensures ascend { IfOk result Ascend }
{
    let mut rows = RowMap::new(alloc);
    put_heads(alloc, &mut rows, spec, state)?;
    put_objects(alloc, &mut rows, state.model)?;
    put_marks(alloc, &mut rows, spec.viewpoint().content(), state.marks)?;
    rows.into_rows(alloc)
}

// The rows of what users put on the diagram.
fn put_marks(
    alloc: Global,
    rows: &mut RowMap,
    content: &Content,
    marks: &Marks,
) -> Result<(), AllocError>
    requires { CanBeWritten marks.now }
    ensures { OnOk result (rows.new ≡ with_rows (mark_rows content.now marks.now) rows.old) }
{
    put_positions(alloc, rows, &marks.layout)?;
    put_shown(alloc, rows, marks.shown.as_slice())?;
    put_hidden(alloc, rows, marks.hidden.as_slice())?;
    put_layers(alloc, rows, marks.layers.as_slice(), content)?;
    put_filters(alloc, rows, marks.filters.as_slice(), content)
}
