ghost use Rattle.std.specs.Prelude.{◌≡◌, ◌<◌, ◌≤◌, ◌+◌, ◌++◌, ◌^◌, ℕ, true, false, [], length, map, count_by, All, IfOk, OnOk, nat_eq, slice_index_or};
ghost use Rattle.std.specs.List.{list_any, flat_map};
ghost use Rattle.wb_metamodel.specs.Metamodel as definition;
ghost use Rattle.wb_metamodel.specs.invariants.Tables.{below_table, features_table, rank_of};
ghost use Rattle.wb_metamodel.specs.invariants.Inherited.{IsHierarchy, FilledTo, all_features};

use std::alloc::{AllocError, Global};
use wb_base::List;
use wb_ecore::{ClassId, FeatureId, Package};

/// The features of each class, where no class is its own supertype.
pub fn features_table(
    alloc: Global,
    elements: &Package,
    below: &[List<bool>],
) -> Result<List<List<FeatureId>>, AllocError>
    requires below { below.now ≡ below_table elements.now }
    requires hierarchy { IsHierarchy elements.now }
    ensures { IfOk result (λ table. table ≡ features_table elements.now) }
{
    let ranks = ranks(alloc, below)?;
    let mut table = empty_table(alloc, elements.classes.len())?;
    for rank in 0..elements.classes.len() {
        fill_rank(alloc, elements, ranks.as_slice(), rank, &mut table)?;
    }
    Ok(List::from_vec(table))
}

/// How many classes stand above each class.
fn ranks(alloc: Global, below: &[List<bool>]) -> Result<Vec<usize>, AllocError>
    ensures { IfOk result (λ ranks. ranks.items ≡ map (λ row. count_by (λ reached. reached) row) below.now) }
{
    let mut ranks = Vec::new(alloc);
    for row in below {
        ranks.push(count_true(row.as_slice()))?;
    }
    Ok(ranks)
}

fn count_true(row: &[bool]) -> usize
    ensures { result ≡ count_by (λ reached. reached) row.now }
{
    row.iter().filter(|reached| **reached).count()
}

fn empty_table(alloc: Global, count: usize) -> Result<Vec<List<FeatureId>>, AllocError>
    ensures { IfOk result (λ table. length table.items ≡ count) }
{
    let mut table = Vec::new(alloc);
    'rows: while table.len() < count {
        table.push(List::new(alloc))?;
    }
    Ok(table)
}

/// Fills in the features of the classes of a rank, where those of the lower ranks are filled in.
fn fill_rank(
    alloc: Global,
    elements: &Package,
    ranks: &[usize],
    rank: usize,
    table: &mut Vec<List<FeatureId>>,
) -> Result<(), AllocError>
    requires hierarchy { IsHierarchy elements.now }
    requires ranks { ranks.now ≡ map (rank_of elements.now) (definition.numbers (length elements.now.classes)) }
    requires filled { FilledTo elements.now table.old.items rank }
    ensures { OnOk result (FilledTo elements.now table.new.items (rank + 1)) }
{
    for class in 0..ranks.len() {
        if ranks[class] == rank {
            let features = features_of(alloc, elements, table.as_slice(), ClassId(class as u32))?;
            table[class] = features;
        }
    }
    Ok(())
}

/// The features of a class, where those of its supertypes stand in the table.
fn features_of(
    alloc: Global,
    elements: &Package,
    table: &[List<FeatureId>],
    class: ClassId,
) -> Result<List<FeatureId>, AllocError>
    requires class { class < length elements.now.classes }
    requires features { length elements.now.features < 2 ^ 32 }
    requires supertypes { (s : ℕ) → definition.is_supertype elements.now class s ≡ true → s < length table.now }
    requires known { (f : ℕ) → list_any (nat_eq f) (all_features elements.now table.now class) ≡ true → f < length elements.now.features }
    ensures { IfOk result (λ features. features ≡ definition.first_places (all_features elements.now table.now class)) }
{
    let mut all = of_supertypes(
        alloc,
        elements.classes.as_slice()[class.0 as usize]
            .supertypes
            .as_slice(),
        table,
    )?;
    push_own(&mut all, elements, class)?;
    first_places(alloc, all.as_slice(), elements.features.len())
}

fn of_supertypes(
    alloc: Global,
    supertypes: &[ClassId],
    table: &[List<FeatureId>],
) -> Result<Vec<FeatureId>, AllocError>
    requires { (s : ℕ) → list_any (nat_eq s) supertypes.now ≡ true → s < length table.now }
    ensures { IfOk result (λ all. all.items ≡ flat_map (λ s. slice_index_or table.now s []) supertypes.now) }
{
    let mut all = Vec::new(alloc);
    for supertype in supertypes {
        let s = *supertype;
        all.extend_from_slice(table[s.0 as usize].as_slice())?;
    }
    Ok(all)
}

/// Puts the features that a class declares itself last.
fn push_own(all: &mut Vec<FeatureId>, elements: &Package, class: ClassId) -> Result<(), AllocError>
    requires { length elements.now.features < 2 ^ 32 }
    ensures { OnOk result (all.new.items ≡ all.old.items ++ definition.own_features elements.now class) }
{
    for (number, feature) in elements.features.as_slice().iter().enumerate() {
        if feature.owner == class {
            all.push(FeatureId(number as u32))?;
        }
    }
    Ok(())
}

/// Each number at its first place alone.
fn first_places(
    alloc: Global,
    all: &[FeatureId],
    count: usize,
) -> Result<List<FeatureId>, AllocError>
    requires { All (λ f. f < count) all.now }
    ensures { IfOk result (λ first. first ≡ definition.first_places all.now) }
{
    let mut seen = vec![in alloc; false; count]?;
    let mut first = Vec::new(alloc);
    for feature in all {
        let f = *feature;
        if !seen[f.0 as usize] {
            seen[f.0 as usize] = true;
            first.push(f)?;
        }
    }
    Ok(List::from_vec(first))
}
