ghost use Rattle.std.specs.Prelude.{map};
ghost use Rattle.serde_json.specs.View.{view};
ghost use Rattle.wb_json.specs.Form.{Gives};
ghost use Rattle.wb_ecore.specs.Document.{document_of, enum_of, class_of, feature_of, attribute_of, reference_of};

use std::alloc::Global;
use wb_base::List;
use wb_json::{Form, Name, Value, Wrong, has, list_or_empty, listed, needed, optional};

/// A metamodel's document, whose names need not name anything yet.
pub struct Document {
    pub package_name: Name,
    pub enums: List<EnumPart>,
    pub classes: List<ClassPart>,
}

impl Drop for Document {
    fn drop(self) {
        let Document {
            package_name: _package_name,
            enums: _enums,
            classes: _classes,
        } = self;
    }
}

#[derive(Drop)]
pub struct EnumPart {
    pub name: Name,
    pub literals: List<Name>,
}

pub struct ClassPart {
    pub name: Name,
    pub is_abstract: bool,
    pub supertypes: List<Name>,
    pub features: List<FeaturePart>,
}

impl Drop for ClassPart {
    fn drop(self) {
        let ClassPart {
            name: _name,
            is_abstract: _,
            supertypes: _supertypes,
            features: _features,
        } = self;
    }
}

pub struct FeaturePart {
    pub name: Name,
    pub many: bool,
    pub target: Target,
}

impl Drop for FeaturePart {
    fn drop(self) {
        let FeaturePart {
            name: _name,
            many: _,
            target: _target,
        } = self;
    }
}

/// What a feature holds.
pub enum Target {
    /// The values of an attribute: a word for a kind, or an enumeration's name.
    Values(Name),
    Objects(ReferencePart),
}

impl Drop for Target {
    fn drop(self) {
        match self {
            Target::Values(_name) => {}
            Target::Objects(_reference) => {}
        }
    }
}

/// What the objects of a reference are.
#[derive(Drop)]
pub struct ReferencePart {
    pub class: Name,
    pub containment: bool,
    pub opposite: Option<Name>,
}

impl Form for Document {
    ghost form = { document_of };

    #[tactic(auto, unfolding(crate::specs::Document::document_of))]
    fn read(alloc: Global, value: &Value) -> Result<Document, Wrong> {
        listed(alloc, value, &["package", "enums", "classes"])?;
        Ok(Document {
            package_name: needed(alloc, value, "package")?,
            enums: list_or_empty(alloc, value, "enums")?,
            classes: needed(alloc, value, "classes")?,
        })
    }
}

impl Form for EnumPart {
    ghost form = { enum_of };

    #[tactic(auto, unfolding(crate::specs::Document::enum_of))]
    fn read(alloc: Global, value: &Value) -> Result<EnumPart, Wrong> {
        listed(alloc, value, &["name", "literals"])?;
        Ok(EnumPart {
            name: needed(alloc, value, "name")?,
            literals: needed(alloc, value, "literals")?,
        })
    }
}

impl Form for ClassPart {
    ghost form = { class_of };

    #[tactic(auto, unfolding(crate::specs::Document::class_of))]
    fn read(alloc: Global, value: &Value) -> Result<ClassPart, Wrong> {
        listed(
            alloc,
            value,
            &["name", "abstract", "supertypes", "features"],
        )?;
        let name = needed(alloc, value, "name")?;
        let is_abstract = optional(alloc, value, "abstract")?;
        Ok(ClassPart {
            name,
            is_abstract: is_abstract.unwrap_or(false),
            supertypes: list_or_empty(alloc, value, "supertypes")?,
            features: list_or_empty(alloc, value, "features")?,
        })
    }
}

impl Form for FeaturePart {
    ghost form = { feature_of };

    #[tactic(auto, unfolding(crate::specs::Document::feature_of))]
    fn read(alloc: Global, value: &Value) -> Result<FeaturePart, Wrong> {
        if has(value, "reference") {
            reference(alloc, value)
        } else {
            attribute(alloc, value)
        }
    }
}

fn attribute(alloc: Global, value: &Value) -> Result<FeaturePart, Wrong>
    ensures { Gives result (attribute_of (view value.now)) }
{
    listed(alloc, value, &["name", "type", "many"])?;
    let name = needed(alloc, value, "name")?;
    let values = needed(alloc, value, "type")?;
    let many = optional(alloc, value, "many")?;
    Ok(FeaturePart {
        name,
        many: many.unwrap_or(false),
        target: Target::Values(values),
    })
}

fn reference(alloc: Global, value: &Value) -> Result<FeaturePart, Wrong>
    ensures { Gives result (reference_of (view value.now)) }
{
    listed(
        alloc,
        value,
        &["name", "reference", "many", "containment", "opposite"],
    )?;
    let name = needed(alloc, value, "name")?;
    let class = needed(alloc, value, "reference")?;
    let many = optional(alloc, value, "many")?;
    let containment = optional(alloc, value, "containment")?;
    let opposite = optional(alloc, value, "opposite")?;
    Ok(FeaturePart {
        name,
        many: many.unwrap_or(false),
        target: Target::Objects(ReferencePart {
            class,
            containment: containment.unwrap_or(false),
            opposite,
        }),
    })
}
