ghost use Rattle.std.specs.Cmp.{partial_equiv_from_equiv};
ghost use Rattle.std.specs.Hash.{same_Alike};
ghost use Rattle.wb_store.specs.Scalars.{hashed, same};
ghost use Rattle.wb_store.specs.ScalarLaws.{same_decides, same_equiv};

use std::hash::{Hash, Hasher};
use wb_metamodel::{ClassId, EnumId, FeatureId, ObjectId, Text};

/// A value that stands in a slot.
#[derive(Drop)]
pub enum Scalar {
    Int(i64),
    Bool(bool),
    Text(Text),
    /// An enumeration, and the number of one of its literals.
    Literal(EnumId, u32),
    /// The object that a reference leads to.
    Object(ObjectId),
}

impl PartialEq for Scalar {
    ghost eq = { same };

    ghost laws = { partial_equiv_from_equiv same_equiv };

    fn eq(&self, other: &Scalar) -> bool {
        match (self, other) {
            (Scalar::Int(a), Scalar::Int(b)) => a == b,
            (Scalar::Bool(a), Scalar::Bool(b)) => a == b,
            (Scalar::Text(a), Scalar::Text(b)) => a == b,
            (Scalar::Literal(a, k), Scalar::Literal(b, l)) => a == b && k == l,
            (Scalar::Object(a), Scalar::Object(b)) => a == b,
            _ => false,
        }
    }
}

impl Eq for Scalar {
    ghost laws = { same_equiv };
}

impl Hash for Scalar {
    ghost hash_input = { hashed };

    ghost respects_eq = { (same_Alike hashed same_decides).fed };

    fn hash<H: Hasher>(&self, state: &mut H) {
        match self {
            Scalar::Int(number) => number.hash(state),
            Scalar::Bool(flag) => flag.hash(state),
            Scalar::Text(text) => text.hash(state),
            Scalar::Literal(enumeration, literal) => {
                enumeration.hash(state);
                literal.hash(state);
            }
            Scalar::Object(o) => o.hash(state),
        }
    }
}

/// Where an object is put: among the roots, or last in a containment slot.
#[derive(Clone, Copy)]
pub enum Place {
    Root,
    In(ObjectId, FeatureId),
}

/// A part of a model that can be read by itself.
#[derive(Clone, Copy, PartialEq, Eq, Hash)]
pub enum Cell {
    /// The class of an object.
    Kind(ObjectId),
    Slot(ObjectId, FeatureId),
    /// The container of an object, and the containment feature that holds it.
    Holder(ObjectId),
    /// What an object contains, directly or through others.
    Tree(ObjectId),
    /// The plain references that lead to an object.
    Inverse(ObjectId),
    /// The live objects that conform to a class.
    Extent(ClassId),
    Roots,
}
