//! What is true of each climb from container to container. These functions do nothing when they run.

ghost use Rattle.std.specs.Prelude.{◌≡◌, ◌↔◌, ℕ, List, true, Option, Ok};
ghost use Rattle.wb_metamodel.specs.Metamodel.{Metamodel};
ghost use Rattle.wb_store.specs.declared.scalars.Cell.{Cell};
ghost use Rattle.wb_store.specs.Contents.{Contents};
ghost use Rattle.wb_store.specs.Relinking.{is_among};
ghost use Rattle.wb_validity.specs.Valid.{Within, IsValid};
ghost use Rattle.wb_aql_values.specs.Readings.{contents};
ghost use Rattle.wb_aql_values.specs.Runs.{run, with_reads};
ghost use Rattle.wb_aql_services.specs.Navigation.{height, nearest};
ghost use Rattle.wb_aql_services.specs.Climbs.{AreAbove, IsClimbed, first_of, looked_at};

/// In a valid model the bound on steps never ends a climb: it ends at an object that stands in no container.
/// What it meets, and every cell that it looks at, follows from the containers above the object alone.
pub fn climbs_are_never_cut_short()
    ensures complete { (m : Contents) → IsValid m → (o : ℕ) (old : List Cell) → IsClimbed m o old }
    ensures exact { (m : Contents) → IsValid m → (o : ℕ) (os : List ℕ) → AreAbove m o os → (p : ℕ) → (is_among os p ≡ true) ↔ Within m p o }
    ensures nearest { (m : Contents) → IsValid m → (o : ℕ) (os : List ℕ) → AreAbove m o os → (mm : Metamodel) (t : Option ℕ) (old : List Cell) → run (nearest mm t height o) (contents m) old ≡ record { gave = Ok (first_of mm t m os); reads = with_reads old (looked_at mm t m o os) } }
{}
