ghost use Rattle.std.specs.Prelude.{◌≡◌, ◌&&◌, ◌||◌, not, ℕ, List, [], ◌∷◌, ◌++◌, Ok, OnOk, is_some, take};
ghost use Rattle.wb_ecore.specs.invariants.NumberedNames.{number_of, Holds};
ghost use Rattle.wb_viewpoint.specs.declared.content.Content.{Content};
ghost use Rattle.wb_spec_check.specs.ChildLists.{ChildList, child_found, fits_mapping, is_own, is_own_name, names_elsewhere};
ghost use Rattle.wb_spec_check.specs.Findings.{mapping_found};
ghost use Rattle.wb_spec_check.specs.Mappings.{children_at};
ghost use Rattle.wb_spec_check.specs.Places.{place_of};
ghost use Rattle.wb_spec_check.specs.invariants.Findings.{Finds};
ghost use Rattle.wb_spec_check.specs.invariants.Reports.{Reports};
ghost use Rattle.wb_spec_check.specs.invariants.Taken.{TakenBy, Takes};

use crate::names::Names;
use crate::path::Path;
use crate::problem::Problem;
use crate::reports::gather;
use crate::roles::{Role, fits, is_own};
use crate::spots::name_at;
use std::alloc::{AllocError, Global};
use wb_base::List;
use wb_ecore::NumberedNames;
use wb_expressions::ProblemCode;
use wb_json::Name;
use wb_viewpoint::Content;

/// The names in the lists that were walked. That of a mapping among its own children does not count.
#[derive(Drop)]
pub(crate) struct Taken {
    names: NumberedNames,
}

impl Taken {
    /// The names of no list.
    pub(crate) fn new(alloc: Global) -> Taken
        ensures { (content : Content) → TakenBy content [] result }
    {
        Taken {
            names: NumberedNames::new(alloc),
        }
    }

    fn has(&self, name: &Name) -> bool
        ensures { result ≡ is_some (number_of self.now.names name.now) }
    {
        has(&self.names, name)
    }
}

fn has(names: &NumberedNames, name: &Name) -> bool
    ensures { result ≡ is_some (number_of names.now name.now) }
{
    names.get(name.as_str().as_bytes()).is_some()
}

/// The mappings that a list names. Its names are taken then.
pub(crate) fn children_at(
    alloc: Global,
    problems: &mut List<Problem>,
    names: &Names<'_>,
    taken: &mut Taken,
    path: &Path<'_>,
    role: Role,
    list: &[Name],
) -> Result<Option<List<u32>>, AllocError>
    ensures reports { (earlier : List ChildList) → TakenBy names.now.1 earlier taken.old → Reports (children_at names.now.1 earlier (place_of path.now) (record { role = role; names = list.now })) problems.old result problems.new }
    ensures takes { (earlier : List ChildList) → TakenBy names.now.1 earlier taken.old → OnOk result (TakenBy names.now.1 (earlier ++ record { role = role; names = list.now } ∷ []) taken.new) }
{
    let children = children_found(alloc, problems, names, taken, path, role, list)?;
    take_names(alloc, names, taken, role, list)?;
    Ok(children)
}

fn children_found(
    alloc: Global,
    problems: &mut List<Problem>,
    names: &Names<'_>,
    taken: &Taken,
    path: &Path<'_>,
    role: Role,
    list: &[Name],
) -> Result<Option<List<u32>>, AllocError>
    ensures { (earlier : List ChildList) → TakenBy names.now.1 earlier taken.now → Reports (children_at names.now.1 earlier (place_of path.now) (record { role = role; names = list.now })) problems.old result problems.new }
{
    let mut children = Some(List::new(alloc));
    let mut seen = NumberedNames::new(alloc);
    for (number, name) in list.iter().enumerate() {
        let found = child_found(names, taken, &seen, role, name);
        let child = name_at(
            alloc,
            problems,
            &Path::Item(&*path, number),
            name.as_str(),
            found,
        )?;
        gather(&mut children, child)?;
        seen.add(alloc, name.as_str().as_bytes(), 0)?;
    }
    Ok(children)
}

/// The mapping that a name of a list names, after the names that were seen in it.
fn child_found(
    names: &Names<'_>,
    taken: &Taken,
    seen: &NumberedNames,
    role: Role,
    name: &Name,
) -> Result<u32, ProblemCode>
    ensures { (earlier : List ChildList) (list : List (List ℕ)) (i : ℕ) → TakenBy names.now.1 earlier taken.now → Holds seen.now (take i list) → Finds name.now result (child_found names.now.1 earlier (record { role = role; names = list }) i name.now) }
{
    match names.mapping(name.as_str()) {
        Ok(number) => child_numbered(names.content(), taken, seen, role, number, name),
        Err(code) => Err(code),
    }
}

fn child_numbered(
    content: &Content,
    taken: &Taken,
    seen: &NumberedNames,
    role: Role,
    number: u32,
    name: &Name,
) -> Result<u32, ProblemCode>
    ensures { (earlier : List ChildList) (list : List (List ℕ)) (i : ℕ) → TakenBy content.now earlier taken.now → Holds seen.now (take i list) → mapping_found content.now name.now ≡ Ok number → Finds name.now result (child_found content.now earlier (record { role = role; names = list }) i name.now) }
{
    if is_reused(taken, seen, role, number, name) {
        return Err(ProblemCode::MappingReused);
    }
    if !fits_mapping(content, role, number) {
        return Err(ProblemCode::BadChild);
    }
    Ok(number)
}

fn is_reused(taken: &Taken, seen: &NumberedNames, role: Role, number: u32, name: &Name) -> bool
    ensures { result ≡ (is_some (number_of seen.now name.now) || (not (is_own role number) && is_some (number_of taken.now.names name.now))) }
{
    if has(seen, name) {
        return true;
    }
    if is_own(role, number) {
        return false;
    }
    taken.has(name)
}

fn fits_mapping(content: &Content, role: Role, number: u32) -> bool
    ensures { result ≡ fits_mapping content.now role number }
{
    match content.mappings.as_slice().get(number as usize) {
        Some(mapping) => fits(role, &mapping.form),
        None => false,
    }
}

/// Takes the names of a list.
fn take_names(
    alloc: Global,
    names: &Names<'_>,
    taken: &mut Taken,
    role: Role,
    list: &[Name],
) -> Result<(), AllocError>
    ensures { OnOk result (Takes (names_elsewhere names.now.1 (record { role = role; names = list.now })) taken.old taken.new) }
{
    for name in list {
        take_name(alloc, names, taken, role, name)?;
    }
    Ok(())
}

fn take_name(
    alloc: Global,
    names: &Names<'_>,
    taken: &mut Taken,
    role: Role,
    name: &Name,
) -> Result<(), AllocError>
    ensures { OnOk result (Takes (names_elsewhere names.now.1 (record { role = role; names = name.now ∷ [] })) taken.old taken.new) }
{
    if is_own_name(names, role, name) {
        return Ok(());
    }
    taken.names.add(alloc, name.as_str().as_bytes(), 0)
}

/// Does the name name the mapping whose children these are?
fn is_own_name(names: &Names<'_>, role: Role, name: &Name) -> bool
    ensures { result ≡ is_own_name names.now.1 role name.now }
{
    match names.mapping(name.as_str()) {
        Ok(number) => is_own(role, number),
        Err(_) => false,
    }
}
