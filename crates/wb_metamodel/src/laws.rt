//! What is true of every metamodel. These functions do nothing when they run.

ghost use Rattle.std.specs.Prelude.{◌≡◌, ◌<◌, ◌↔◌, ◌++◌, ℕ, Contains, Some, length, nat_eq};
ghost use Rattle.std.specs.List.{IsDistinct, flat_map};
ghost use Rattle.wb_ecore.specs.declared.features.Feature.{Feature};
ghost use Rattle.wb_metamodel.specs.Metamodel.{Metamodel, Conforms, supertypes_of, own_features, features_of, feature_at, first_places};
ghost use Rattle.wb_metamodel.specs.WellFormed.{WellFormed};

/// The features of a class are those of its supertypes, supertype by supertype, and then its own, each at its first place.
/// So each stands there once, and they are those that a class declares to which this one conforms.
pub fn features_are_inherited()
    ensures order { (mm : Metamodel) → WellFormed mm → (c : ℕ) → c < length mm.classes → features_of mm c ≡ first_places (flat_map (features_of mm) (supertypes_of mm c) ++ own_features mm c) }
    ensures once { (mm : Metamodel) (c : ℕ) → IsDistinct nat_eq (features_of mm c) }
    ensures declared { (mm : Metamodel) → WellFormed mm → (c f : ℕ) (feature : Feature) → feature_at mm f ≡ Some feature → (Contains (features_of mm c) f ↔ Conforms mm c feature.owner) }
{}
