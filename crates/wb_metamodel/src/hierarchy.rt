ghost use Rattle.std.specs.Prelude.{◌≡◌, ◌<◌, ℕ, true, [], length, map, IfOk, slice_index_or};
ghost use Rattle.wb_metamodel.specs.Metamodel as definition;
ghost use Rattle.wb_metamodel.specs.invariants.Tables.{or_row, widened, direct_row, below_table};

use std::alloc::{AllocError, Global};
use wb_base::List;
use wb_ecore::{Class, ClassId, Package};

/// For each pair of classes, whether a path of one or more supertypes leads from the first to the second.
pub fn below_table(alloc: Global, elements: &Package) -> Result<List<List<bool>>, AllocError>
    requires { (c s : ℕ) → definition.is_supertype elements.now c s ≡ true → s < length elements.now.classes }
    ensures { IfOk result (λ table. table ≡ below_table elements.now) }
{
    let count = elements.classes.len();
    let mut table = direct_table(alloc, elements.classes.as_slice())?;
    for done in 0..count {
        table = through(alloc, table, count - 1 - done)?;
    }
    Ok(table)
}

fn direct_table(alloc: Global, classes: &[Class]) -> Result<List<List<bool>>, AllocError>
    ensures { IfOk result (λ table. table ≡ map (λ class. direct_row (length classes.now) class.supertypes) classes.now) }
{
    let mut rows = Vec::new(alloc);
    for class in classes {
        rows.push(direct_row(alloc, classes.len(), class.supertypes.as_slice())?)?;
    }
    Ok(List::from_vec(rows))
}

fn direct_row(alloc: Global, count: usize, supertypes: &[ClassId]) -> Result<List<bool>, AllocError>
    ensures { IfOk result (λ row. row ≡ direct_row count supertypes.now) }
{
    let mut row = vec![in alloc; false; count]?;
    for class in supertypes {
        let c = *class;
        if (c.0 as usize) < count {
            row[c.0 as usize] = true;
        }
    }
    Ok(List::from_vec(row))
}

/// Takes the paths through one more class into the table.
fn through(alloc: Global, table: List<List<bool>>, k: usize) -> Result<List<List<bool>>, AllocError>
    requires { k < length table }
    ensures { IfOk result (λ wider. wider ≡ map (widened k (slice_index_or table k [])) table) }
{
    let via = copied(alloc, table.as_slice()[k].as_slice())?;
    let mut rows = Vec::with_capacity(alloc, table.len())?;
    for row in table.into_vec() {
        rows.push(widened(row, via.as_slice(), k))?;
    }
    Ok(List::from_vec(rows))
}

fn copied(alloc: Global, row: &[bool]) -> Result<Vec<bool>, AllocError>
    ensures { IfOk result (λ copy. copy.items ≡ row.now) }
{
    Vec::from_slice(alloc, row)
}

fn widened(row: List<bool>, via: &[bool], k: usize) -> List<bool>
    ensures { result ≡ widened k via.now row }
{
    let mut cells = row.into_vec();
    if k < cells.len() && cells[k] {
        or_row(&mut cells, via);
    }
    List::from_vec(cells)
}

fn or_row(row: &mut Vec<bool>, via: &[bool])
    ensures { row.new.items ≡ or_row row.old.items via.now }
{
    let count = row.len().min(via.len());
    for b in 0..count {
        row[b] |= via[b];
    }
}
