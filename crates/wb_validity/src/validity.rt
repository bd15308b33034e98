//! What is true of every model. These functions do nothing when they run.

ghost use Rattle.std.specs.Prelude.{◌≡◌, ◌∷◌, ◌↔◌, ℕ, IsTrue};
ghost use Rattle.std.specs.List.{flat_map};
ghost use Rattle.wb_store.specs.Cells.{content, tree};
ghost use Rattle.wb_store.specs.Contents.{Contents};
ghost use Rattle.wb_validity.specs.Ranges.{AreInRange};
ghost use Rattle.wb_validity.specs.Valid.{IsValid};
ghost use Rattle.wb_validity.specs.ValidTest.{is_valid};

/// Whether a model is valid is decided by a test.
pub fn validity_is_decided()
    ensures { (m : Contents) → (IsTrue (is_valid m) ↔ IsValid m) }
{}

/// A class of a valid model is one of the metamodel; an integer has 64 signed bits, a text is UTF-8, an object's number
/// has 32 bits.
pub fn contents_are_in_range()
    ensures { (m : Contents) → IsValid m → AreInRange m }
{}

/// The tree of an object of a valid model is what it contains, in order, each with its own tree after it.
pub fn trees_are_in_order()
    ensures { (m : Contents) → IsValid m → (o : ℕ) → tree m o ≡ flat_map (λ p. p ∷ tree m p) (content m o) }
{}
