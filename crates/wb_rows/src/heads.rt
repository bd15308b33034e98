ghost use Rattle.std.specs.Prelude.{◌≡◌, ◌++◌, codes, decimal, IfOk, OnOk, string_bytes};
ghost use Rattle.std.specs.FinMap as maps;
ghost use Rattle.wb_rows.specs.Rows.{spec_row};
ghost use Rattle.wb_rows.specs.States.{head_rows, state_of};
ghost use Rattle.wb_rows.specs.Texts.{with_rows};

use crate::row_map::RowMap;
use crate::spelling::{number_text, roots_text};
use crate::state::StateParts;
use std::alloc::{AllocError, Global};
use wb_metamodel::Metamodel;
use wb_spec_check::CheckedViewpoint;

/// The rows that every state has.
pub(crate) fn put_heads(
    alloc: Global,
    rows: &mut RowMap,
    spec: &CheckedViewpoint,
    state: &StateParts,
) -> Result<(), AllocError>
    ensures { OnOk result (rows.new ≡ with_rows (head_rows spec.now (state_of state.now)) rows.old) }
{
    put_text(alloc, rows, "version", String::from_str(alloc, "1")?)?;
    let names = spec_text(alloc, state.model.metamodel(), spec)?;
    put_text(alloc, rows, "spec", names)?;
    put_number(alloc, rows, "root", u64::from(state.root.0))?;
    put_number(alloc, rows, "next", u64::from(state.model.next()))?;
    put_number(alloc, rows, "revision", state.revision)?;
    put_text(
        alloc,
        rows,
        "roots",
        roots_text(alloc, state.model.roots())?,
    )
}

/// The name of the metamodel's package, and that of the viewpoint, as the text of a row.
pub fn spec_text(
    alloc: Global,
    metamodel: &Metamodel,
    spec: &CheckedViewpoint,
) -> Result<String, AllocError>
    ensures { IfOk result (λ text. string_bytes text ≡ (spec_row metamodel.now spec.now.0).text) }
{
    let mut text = String::from_str(alloc, metamodel.package().as_str())?;
    text.push_str("/")?;
    text.push_str(spec.viewpoint().content().viewpoint_name.as_str())?;
    Ok(text)
}

fn put_text(alloc: Global, rows: &mut RowMap, key: &str, text: String) -> Result<(), AllocError>
    ensures { OnOk result (rows.new ≡ maps.insert rows.old key.now (string_bytes text)) }
{
    rows.put(String::from_str(alloc, key)?, text.into_bytes())
}

fn put_number(alloc: Global, rows: &mut RowMap, key: &str, number: u64) -> Result<(), AllocError>
    ensures { OnOk result (rows.new ≡ maps.insert rows.old key.now (decimal number)) }
{
    put_text(alloc, rows, key, number_text(alloc, number)?)
}
