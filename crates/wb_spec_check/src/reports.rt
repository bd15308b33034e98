ghost use Rattle.std.specs.Prelude.{◌≡◌, Some, IfOk};
ghost use Rattle.wb_spec_check.specs.invariants.Reports.{and_then};

use std::alloc::AllocError;
use wb_base::List;

/// One more item, behind those that are all good so far.
pub(crate) fn gather<T: Drop>(
    items: &mut Option<List<T>>,
    item: Option<T>,
) -> Result<(), AllocError>
    ensures { IfOk result (λ _. items.new ≡ and_then items.old item) }
{
    match item {
        Some(item) => gather_good(items, item),
        None => {
            *items = None;
            Ok(())
        }
    }
}

fn gather_good<T: Drop>(items: &mut Option<List<T>>, item: T) -> Result<(), AllocError>
    ensures { IfOk result (λ _. items.new ≡ and_then items.old (Some item)) }
{
    match items {
        Some(items) => items.push(item)?,
        None => {}
    }
    Ok(())
}
