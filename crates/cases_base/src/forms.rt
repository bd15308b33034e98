//! Forms as the crates above write them.
ghost use Rattle.std.specs.Prelude.{◌≡◌, [], ◌∷◌, List, ℕ, Bool, false, codes, unwrap_or, Ok};
ghost use Rattle.serde_json.specs.Data.{string, object, member, no_members};
ghost use Rattle.wb_base.specs.Results.{◌>>=◌};
ghost use Rattle.wb_json.specs.Form.{listed, needed, optional, list_or_empty, list_of, name_of, text_of, bool_of, word_of};
ghost use Rattle.wb_json.specs.ToJson.{list_json};
ghost use Rattle.wb_json.specs.NoFloats.{list_no_float};
ghost use Rattle.std.proofs.Common.{rules};

use serde_json::json;
use std::alloc::{AllocError, Global};
use wb_base::{List, Text};
use wb_json::{Form, Name, ToJson, Value, Wrong, chosen, list_or_empty, listed, needed, optional};

/// All members but one are needed; one is a list of values that have lists.
#[derive(Drop)]
pub struct Library {
    name: Name,
    shelves: List<Shelf>,
    is_open: bool,
}

#[derive(Drop)]
pub struct Shelf {
    label: Text,
    books: List<Name>,
}

impl Form for Shelf {
    ghost form = { λ d. listed (codes "label" ∷ codes "books" ∷ []) d
        >>= (λ _. needed (codes "label") text_of d
        >>= (λ label. list_or_empty (codes "books") name_of d
        >>= (λ books. Ok (record { label = label; books = books })))) };

    fn read(alloc: Global, value: &Value) -> Result<Shelf, Wrong> {
        listed(alloc, value, &["label", "books"])?;
        let label = needed(alloc, value, "label")?;
        let books = list_or_empty(alloc, value, "books")?;
        Ok(Shelf { label, books })
    }
}

impl Form for Library {
    ghost form = { λ d. listed (codes "name" ∷ codes "shelves" ∷ codes "open" ∷ []) d
        >>= (λ _. needed (codes "name") name_of d
        >>= (λ name. needed (codes "shelves") (list_of ⟦<Shelf as Form>⟧.form) d
        >>= (λ shelves. optional (codes "open") bool_of d
        >>= (λ is_open. Ok (record { name = name; shelves = shelves; is_open = unwrap_or is_open false }))))) };

    fn read(alloc: Global, value: &Value) -> Result<Library, Wrong> {
        listed(alloc, value, &["name", "shelves", "open"])?;
        let name = needed(alloc, value, "name")?;
        let shelves = needed(alloc, value, "shelves")?;
        let is_open = optional(alloc, value, "open")?.unwrap_or(false);
        Ok(Library {
            name,
            shelves,
            is_open,
        })
    }
}

/// A word chooses.
#[derive(Clone, Copy)]
pub enum Shape {
    Square,
    Ellipse,
}

impl Form for Shape {
    ghost use Rattle.cases_base.specs.declared.forms.Shape.TheVariants.{Square, Ellipse};

    ghost form = { word_of ((codes "square", Square) ∷ (codes "ellipse", Ellipse) ∷ []) };

    fn read(alloc: Global, value: &Value) -> Result<Shape, Wrong> {
        chosen(
            alloc,
            value,
            &[("square", Shape::Square), ("ellipse", Shape::Ellipse)],
        )
    }
}

/// The word stands in a member, and chooses which others may stand beside it.
#[derive(Drop)]
pub struct Figure {
    shape: Shape,
    label: Option<Text>,
}

impl Form for Figure {
    ghost form = { λ d. needed (codes "shape") ⟦<Shape as Form>⟧.form d
        >>= (λ shape. listed (codes "shape" ∷ codes "label" ∷ []) d
        >>= (λ _. optional (codes "label") text_of d
        >>= (λ label. Ok (record { shape = shape; label = label })))) };

    fn read(alloc: Global, value: &Value) -> Result<Figure, Wrong> {
        let shape = needed(alloc, value, "shape")?;
        listed(alloc, value, &["shape", "label"])?;
        let label = optional(alloc, value, "label")?;
        Ok(Figure { shape, label })
    }
}

impl ToJson for Shelf {
    ghost json = { λ shelf. object (member (codes "books") (list_json string shelf.books)
        (member (codes "label") (string shelf.label) no_members)) };

    ghost no_float = { λ shelf. Prim.search (rules, list_no_float) };

    fn to_json(&self, alloc: Global) -> Result<Value, AllocError> {
        let books = self.books.to_json(alloc)?;
        let label = self.label.to_json(alloc)?;
        json!(in alloc; {"label": label, "books": books})
    }
}
