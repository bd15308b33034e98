ghost use Rattle.std.specs.Prelude.{◌≡◌, ◌<◌};
ghost use Rattle.wb_viewpoint.specs.OperationTrees.{count_all};
ghost use Rattle.wb_viewpoint.specs.View.{trees_of};

use wb_viewpoint::Operation;

/// How many operations these are, those inside included.
pub fn count_all(operations: &[Operation]) -> u32
    requires { count_all (trees_of operations.now) < 4294967296 }
    ensures { result ≡ count_all (trees_of operations.now) }
{
    match operations {
        [] => 0,
        [first, rest @ ..] => 1 + count_all(first.inside.as_slice()) + count_all(rest),
    }
}
