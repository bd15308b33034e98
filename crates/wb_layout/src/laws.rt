ghost use Rattle.std.specs.Prelude.{◌≡◌, List, ◌++◌, ◌∷◌, Some, None, if◌then◌else◌, false, length};
ghost use Rattle.std.specs.FinMap as map;
ghost use Rattle.std.specs.List.{IsDistinct};
ghost use Rattle.wb_diagram.specs.declared.keys.Key.{Key};
ghost use Rattle.wb_layout.specs.Grid.{arranged, children_of, grid, parent_of};
ghost use Rattle.wb_layout.specs.Orders.{is_key, same_key};
ghost use Rattle.wb_layout.specs.Positions.{restricted};

use crate::layout::Layout;
use wb_diagram::Key;

/// A law: keys that stand once each are laid by the number of the keys before them that have the same parent. The others stay where they are.
pub fn each_is_laid_once(layout: &Layout, placeable: &[Key])
    requires { IsDistinct same_key placeable.now }
    ensures laid { (before : List Key) (key : Key) (after : List Key) → placeable.now ≡ before ++ key ∷ after
        → map.get (arranged layout.now placeable.now) key ≡ Some (grid (length (children_of (parent_of key) before))) }
    ensures others { (key : Key) → is_key placeable.now key ≡ false
        → map.get (arranged layout.now placeable.now) key ≡ map.get layout.now key }
{}

/// A law: what is declared keeps its position, and nothing else has one.
pub fn only_the_declared_stay(layout: &Layout, declared: &[Key])
    ensures { (key : Key) → map.get (restricted layout.now declared.now) key ≡ (if is_key declared.now key then map.get layout.now key else None) }
{}
