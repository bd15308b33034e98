ghost use Rattle.std.specs.Prelude.{◌≡◌, Ok};
ghost use Rattle.wb_base.specs.Answering.{AsDefined};
ghost use Rattle.wb_json.specs.Refusals.{code_at};
ghost use Rattle.wb_ecore.specs.Document.{HasNames};
ghost use Rattle.wb_metamodel.specs.invariants.Tables.{TablesOf};
ghost use Rattle.wb_metamodel.specs.Checks.{metamodel, read_document, resolve, check, later};

use crate::checking::{no_clash, no_cycle, opposites_match, within_limits};
use crate::hierarchy::below_table;
use crate::lookup::Tables;
use crate::metamodel::Metamodel;
use crate::tables::tables;
use std::alloc::Global;
use wb_base::Text;
use wb_ecore::{Document, MetamodelCode, MetamodelRefusal, Package, resolved, unrepeated_names};
use wb_json::{Form, at_root, coded, parse_json};

/// The metamodel that a JSON text is, or what is wrong with it first, and where.
#[tactic(auto, unfolding(crate::specs::Checks::metamodel))]
pub fn read_metamodel(alloc: Global, bytes: &[u8]) -> Result<Metamodel, MetamodelRefusal>
    ensures { AsDefined code_at (metamodel bytes.now) result }
{
    let document = read_document(alloc, bytes)?;
    let elements = resolve(alloc, &document)?;
    checked(alloc, &document, elements)
}

#[tactic(auto, unfolding(crate::specs::Checks::read_document))]
fn read_document(alloc: Global, bytes: &[u8]) -> Result<Document, MetamodelRefusal>
    ensures { AsDefined code_at (read_document bytes.now) result }
{
    match parse_json(alloc, bytes)? {
        Some(value) => coded(
            alloc,
            MetamodelCode::BadShape,
            Document::read(alloc, &value),
        ),
        None => Err(at_root(
            alloc,
            MetamodelCode::BadJson,
            &Text::from_string(String::new(alloc)),
        )),
    }
}

#[tactic(auto, unfolding(crate::specs::Checks::resolve))]
fn resolve(alloc: Global, document: &Document) -> Result<Package, MetamodelRefusal>
    ensures { AsDefined code_at (resolve document.now) result }
{
    coded(
        alloc,
        MetamodelCode::DuplicateName,
        unrepeated_names(alloc, document),
    )?;
    coded(alloc, MetamodelCode::UnknownName, resolved(alloc, document))
}

/// The metamodel of this content, where no class is its own supertype and the later checks pass.
/// A count that no `u32` holds is taken as want of memory.
#[tactic(auto, unfolding(crate::specs::Checks::check))]
fn checked(
    alloc: Global,
    document: &Document,
    elements: Package,
) -> Result<Metamodel, MetamodelRefusal>
    requires names { HasNames document.now }
    requires resolved { resolve document.now ≡ Ok elements }
    ensures { AsDefined code_at (check elements) result }
{
    if elements.classes.len() > u32::MAX as usize || elements.features.len() > u32::MAX as usize {
        return Err(MetamodelRefusal::NoMemory);
    }
    let below = below_table(alloc, &elements)?;
    coded(
        alloc,
        MetamodelCode::SupertypeCycle,
        no_cycle(alloc, &elements, below.as_slice()),
    )?;
    let tables = tables(alloc, &elements, below)?;
    match later(alloc, &elements, &tables) {
        Ok(()) => Ok(Metamodel::new(elements, tables)),
        Err(refusal) => Err(refusal),
    }
}

/// The checks of inherited names, opposites and limits.
#[tactic(auto, unfolding(crate::specs::Checks::later))]
fn later(alloc: Global, elements: &Package, tables: &Tables) -> Result<(), MetamodelRefusal>
    requires { TablesOf elements.now tables.now }
    ensures { AsDefined code_at (later elements.now) result }
{
    coded(
        alloc,
        MetamodelCode::DuplicateName,
        no_clash(alloc, elements, tables),
    )?;
    coded(
        alloc,
        MetamodelCode::OppositeMismatch,
        opposites_match(alloc, elements),
    )?;
    coded(
        alloc,
        MetamodelCode::TooMany,
        within_limits(alloc, elements),
    )
}
