//! What is true of every edit that is accepted. These functions do nothing when they run.

ghost use Rattle.std.specs.Prelude.{◌≡◌, ◌≢◌, ◌<◌, ◌≤◌, ◌↔◌, ℕ, true, false, not, [], ◌∷◌, ◌++◌, if◌then◌else◌, Some, None, Ok, filter};
ghost use Rattle.wb_metamodel.specs.WellFormed.{WellFormed};
ghost use Rattle.wb_store.specs.declared.scalars.Scalar.{Scalar};
ghost use Rattle.wb_store.specs.declared.scalars.Scalar.TheVariants.{Object};
ghost use Rattle.wb_store.specs.declared.scalars.Place.{Place};
ghost use Rattle.wb_store.specs.declared.scalars.Place.TheVariants.{Root, In};
ghost use Rattle.wb_store.specs.Scalars.{same};
ghost use Rattle.wb_store.specs.Contents.{Contents, kind, slot, has_object};
ghost use Rattle.wb_store.specs.Cells.{holder, is_plain, tree};
ghost use Rattle.wb_store.specs.Features.{opposite};
ghost use Rattle.wb_validity.specs.Valid.{Within, IsValid};
ghost use Rattle.wb_store.specs.Relinking.{link, is_among, stands};
ghost use Rattle.wb_model.specs.Edits.{set, add, take_out, unset, move_to, remove, create};
ghost use Rattle.wb_model.specs.declared.edits.edit.Edit.{Edit};
ghost use Rattle.wb_model.specs.GivenEdits.{edit_of};
ghost use Rattle.wb_model.specs.EditLaws.{IsEdited, AreEdited, KeepsOrder, ChangesOnly, NumbersAreFresh, GoesWith, IsNowhere};

/// An edit leaves a valid model, of the same metamodel.
pub fn edits_keep_models_valid()
    ensures valid { (m n : Contents) → WellFormed m.metamodel → IsValid m → IsEdited m n → IsValid n }
    ensures metamodel { (m n : Contents) → IsEdited m n → n.metamodel ≡ m.metamodel }
    ensures many { (m n : Contents) → WellFormed m.metamodel → IsValid m → AreEdited m n → IsValid n }
{}

/// Two objects have each other at opposite features, or neither has.
pub fn edits_keep_opposites()
    ensures { (m n : Contents) → WellFormed m.metamodel → IsValid m → IsEdited m n → (o f p g : ℕ) → opposite m.metamodel f ≡ Some g → has_object (slot n o f) p ≡ has_object (slot n p g) o }
{}

/// Values that stay in a slot keep their order, and one value at most comes, after them.
pub fn edits_keep_the_order()
    ensures { (m n : Contents) → WellFormed m.metamodel → IsEdited m n → (o f : ℕ) → KeepsOrder (slot m o f) (slot n o f) }
{}

/// No number is given to two objects: not by an edit, and not by many.
pub fn edits_give_new_numbers()
    ensures fresh { (m n : Contents) → IsEdited m n → NumbersAreFresh m n }
    ensures never_again { (m n : Contents) → AreEdited m n → (o : ℕ) → o < m.next → kind m o ≡ None → kind n o ≡ None }
{}

/// A removed object, and all that it contained, is nowhere; the other objects stay.
pub fn removed_objects_are_nowhere()
    ensures nowhere { (m n : Contents) → WellFormed m.metamodel → IsValid m → (o : ℕ) → remove m o ≡ Ok n → (x : ℕ) → GoesWith m o x → IsNowhere n x }
    ensures others { (m n : Contents) → WellFormed m.metamodel → IsValid m → (o : ℕ) → remove m o ≡ Ok n → (x : ℕ) → ¬ (GoesWith m o x) → kind n x ≡ kind m x }
{}

/// What is removed with an object is its tree.
pub fn trees_are_what_is_within()
    ensures { (m : Contents) → IsValid m → (o p : ℕ) → (is_among (tree m o) p ≡ true) ↔ Within m o p }
{}

/// Where there is nothing to change, nothing changes.
pub fn edits_may_change_nothing()
    ensures set { (m n : Contents) (o f : ℕ) (v : Scalar) → stands m (link o f v) ≡ true → set m o f v ≡ Ok n → n ≡ m }
    ensures add { (m n : Contents) (o f : ℕ) (v : Scalar) → stands m (link o f v) ≡ true → add m o f v ≡ Ok n → n ≡ m }
    ensures take { (m n : Contents) → IsValid m → (o f : ℕ) (v : Scalar) → stands m (link o f v) ≡ false → take_out m o f v ≡ Ok n → n ≡ m }
    ensures unset { (m n : Contents) → IsValid m → (o f : ℕ) → slot m o f ≡ [] → unset m o f ≡ Ok n → n ≡ m }
    ensures move_to { (m n : Contents) (o p f : ℕ) → stands m (link p f (Object o)) ≡ true → move_to m o p f ≡ Ok n → n ≡ m }
{}

/// What becomes of the slot of an edit of a plain feature.
pub fn edits_change_their_slot()
    ensures set { (m n : Contents) → WellFormed m.metamodel → IsValid m → (o f : ℕ) (v : Scalar) → set m o f v ≡ Ok n → slot n o f ≡ v ∷ [] }
    ensures add { (m n : Contents) → WellFormed m.metamodel → IsValid m → (o f : ℕ) (v : Scalar) → add m o f v ≡ Ok n → slot n o f ≡ (if stands m (link o f v) then slot m o f else slot m o f ++ v ∷ []) }
    ensures take { (m n : Contents) → WellFormed m.metamodel → IsValid m → (o f : ℕ) (v : Scalar) → take_out m o f v ≡ Ok n → slot n o f ≡ filter (λ w. not (same w v)) (slot m o f) }
    ensures unset { (m n : Contents) (o f : ℕ) → unset m o f ≡ Ok n → slot n o f ≡ [] }
{}

/// An edit of a plain feature leaves all but the slots of this feature and its opposite.
pub fn edits_leave_other_features()
    ensures set { (m n : Contents) → WellFormed m.metamodel → (o f : ℕ) (v : Scalar) → set m o f v ≡ Ok n → ChangesOnly m n f }
    ensures add { (m n : Contents) → WellFormed m.metamodel → (o f : ℕ) (v : Scalar) → add m o f v ≡ Ok n → ChangesOnly m n f }
    ensures take { (m n : Contents) → WellFormed m.metamodel → (o f : ℕ) (v : Scalar) → take_out m o f v ≡ Ok n → ChangesOnly m n f }
    ensures unset { (m n : Contents) → WellFormed m.metamodel → (o f : ℕ) → unset m o f ≡ Ok n → ChangesOnly m n f }
{}

/// A moved object is in its new container, last unless it was there.
pub fn moved_objects_have_their_container()
    ensures holder { (m n : Contents) → WellFormed m.metamodel → IsValid m → (o p f : ℕ) → move_to m o p f ≡ Ok n → holder n o ≡ Some (p, f) }
    ensures slot { (m n : Contents) → WellFormed m.metamodel → IsValid m → (o p f : ℕ) → move_to m o p f ≡ Ok n → slot n p f ≡ (if stands m (link p f (Object o)) then slot m p f else slot m p f ++ Object o ∷ []) }
{}

/// To make or move an object changes no plain feature and no other object's class.
pub fn edits_of_objects_leave_plain_features()
    ensures create { (m n : Contents) → WellFormed m.metamodel → (class : ℕ) (place : Place) → create m class place ≡ Ok n → (o f : ℕ) → is_plain m.metamodel f ≡ true → slot n o f ≡ slot m o f }
    ensures move_to { (m n : Contents) → WellFormed m.metamodel → (o p f : ℕ) → move_to m o p f ≡ Ok n → (q g : ℕ) → is_plain m.metamodel g ≡ true → slot n q g ≡ slot m q g }
    ensures created { (m n : Contents) (class : ℕ) (place : Place) → create m class place ≡ Ok n → (o : ℕ) → o ≢ m.next → kind n o ≡ kind m o }
    ensures moved { (m n : Contents) (o p f : ℕ) → move_to m o p f ≡ Ok n → (x : ℕ) → kind n x ≡ kind m x }
{}

/// A new object has the number `next` and its class, and is last among the roots or in its slot.
pub fn created_objects_have_their_place()
    ensures class { (m n : Contents) (class : ℕ) (place : Place) → create m class place ≡ Ok n → kind n m.next ≡ Some class }
    ensures root { (m n : Contents) (class : ℕ) → create m class Root ≡ Ok n → n.roots ≡ m.roots ++ m.next ∷ [] }
    ensures holder { (m n : Contents) → WellFormed m.metamodel → IsValid m → (class p f : ℕ) → create m class (In p f) ≡ Ok n → holder n m.next ≡ Some (p, f) }
    ensures slot { (m n : Contents) → WellFormed m.metamodel → IsValid m → (class p f : ℕ) → create m class (In p f) ≡ Ok n → slot n p f ≡ slot m p f ++ Object m.next ∷ [] }
{}

/// An edit that is given is one of the seven: it leaves a valid model of the same metamodel, and `next` does not fall.
pub fn given_edits_are_edits()
    ensures edited { (edit : Edit) (m n : Contents) → edit_of edit m ≡ Ok n → IsEdited m n }
    ensures valid { (edit : Edit) (m n : Contents) → WellFormed m.metamodel → IsValid m → edit_of edit m ≡ Ok n → IsValid n }
    ensures metamodel { (edit : Edit) (m n : Contents) → edit_of edit m ≡ Ok n → n.metamodel ≡ m.metamodel }
    ensures next { (edit : Edit) (m n : Contents) → edit_of edit m ≡ Ok n → m.next ≤ n.next }
{}
