//! What is true of all marks. These functions do nothing when they run.

ghost use Rattle.std.specs.Prelude.{◌≡◌, ℕ, List, [], Bool, nat_eq};
ghost use Rattle.std.specs.List.{IsDistinct};
ghost use Rattle.wb_diagram.specs.declared.keys.AnyKey.{AnyKey};
ghost use Rattle.wb_diagram.specs.declared.keys.EdgeKey.{EdgeKey};
ghost use Rattle.wb_diagram.specs.declared.keys.Key.{Key};
ghost use Rattle.wb_layout.specs.Positions.{Position};
ghost use Rattle.wb_marks.specs.declared.marks.Marks.{Marks};
ghost use Rattle.wb_marks.specs.Marks.{AreDistinct, AreOf, arranged, hidden_too, placed, revealed, settled, shown_too, unmarked, unshown, with_filter, with_layer};

/// Settled marks are of the keys, marks that are of the keys stay as they are, and so to settle twice is to settle once.
pub fn marks_settle()
    ensures settled { (nodes : List Key) (edges : List EdgeKey) (m : Marks) → AreOf nodes edges (settled nodes edges m) }
    ensures stay { (nodes : List Key) (edges : List EdgeKey) (m : Marks) → AreOf nodes edges m → settled nodes edges m ≡ m }
    ensures once { (nodes : List Key) (edges : List EdgeKey) (m : Marks) → settled nodes edges (settled nodes edges m) ≡ settled nodes edges m }
{}

/// Nothing is marked or switched twice, whatever users do.
pub fn marks_are_distinct()
    ensures unmarked { (layers : List ℕ) → IsDistinct nat_eq layers → AreDistinct (unmarked layers) }
    ensures shown { (key : Key) (m : Marks) → AreDistinct m → AreDistinct (shown_too key m) }
    ensures unshown { (key : Key) (m : Marks) → AreDistinct m → AreDistinct (unshown key m) }
    ensures hidden { (key : AnyKey) (m : Marks) → AreDistinct m → AreDistinct (hidden_too key m) }
    ensures revealed { (key : AnyKey) (m : Marks) → AreDistinct m → AreDistinct (revealed key m) }
    ensures placed { (key : Key) (at : Position) (m : Marks) → AreDistinct m → AreDistinct (placed key at m) }
    ensures arranged { (keys : List Key) (m : Marks) → AreDistinct m → AreDistinct (arranged keys m) }
    ensures layer { (number : ℕ) (active : Bool) (m : Marks) → AreDistinct m → AreDistinct (with_layer number active m) }
    ensures filter { (number : ℕ) (active : Bool) (m : Marks) → AreDistinct m → AreDistinct (with_filter number active m) }
    ensures settled { (nodes : List Key) (edges : List EdgeKey) (m : Marks) → AreDistinct m → AreDistinct (settled nodes edges m) }
{}
