ghost use Rattle.std.specs.Prelude.{◌≡◌, ◌<◌, ◌^◌, ℕ, List, Some, None, IfOk, length, map, All, slice_get, unwrap_or};
ghost use Rattle.std.specs.List.{AllZip};
ghost use Rattle.wb_ecore.specs.invariants.NumberedNames.{number_of};
ghost use Rattle.wb_metamodel.specs.invariants.Tables.{LiteralPlaces, HasRow, TablesOf, below_table};
ghost use Rattle.wb_metamodel.specs.invariants.Inherited.{IsHierarchy};

use crate::inherited::features_table;
use crate::lookup::Tables;
use std::alloc::{AllocError, Global};
use wb_base::List;
use wb_ecore::{Enumeration, Feature, FeatureId, NumberedNames, Package};

/// What a metamodel is looked up by, of one whose classes have no cycle.
pub fn tables(
    alloc: Global,
    elements: &Package,
    below: List<List<bool>>,
) -> Result<Tables, AllocError>
    requires below { below ≡ below_table elements.now }
    requires hierarchy { IsHierarchy elements.now }
    ensures { IfOk result (λ tables. TablesOf elements.now tables) }
{
    let class_features = features_table(alloc, elements, below.as_slice())?;
    let feature_names = NumberedNames::of(alloc, elements.features.as_slice())?;
    let feature_places = places(alloc, &feature_names, elements.features.as_slice())?;
    let features_by_name = rows(alloc, feature_places.as_slice(), class_features.as_slice())?;
    Ok(Tables {
        below,
        class_features,
        class_names: NumberedNames::of(alloc, elements.classes.as_slice())?,
        enum_names: NumberedNames::of(alloc, elements.enumerations.as_slice())?,
        literal_names: literal_names(alloc, elements.enumerations.as_slice())?,
        feature_names,
        feature_places,
        features_by_name,
    })
}

/// The places of each enumeration's literals.
fn literal_names(
    alloc: Global,
    enumerations: &[Enumeration],
) -> Result<List<NumberedNames>, AllocError>
    ensures { IfOk result (λ tables. LiteralPlaces tables enumerations.now) }
{
    let mut tables = Vec::new(alloc);
    for enumeration in enumerations {
        tables.push(NumberedNames::of(alloc, enumeration.literals.as_slice())?)?;
    }
    Ok(List::from_vec(tables))
}

/// For each feature the number of its name.
fn places(
    alloc: Global,
    names: &NumberedNames,
    features: &[Feature],
) -> Result<List<u32>, AllocError>
    ensures { IfOk result (λ places. places ≡ map (λ feature. unwrap_or (number_of names.now feature.name) 0) features.now) }
{
    let mut places = Vec::new(alloc);
    for feature in features {
        places.push(names.get(feature.name.as_slice()).unwrap_or(0))?;
    }
    Ok(List::from_vec(places))
}

/// For each class the features by the places of their names.
fn rows(
    alloc: Global,
    places: &[u32],
    class_features: &[List<FeatureId>],
) -> Result<List<List<Option<FeatureId>>>, AllocError>
    requires places { All (λ place. place < length places.now) places.now }
    requires features { (c : ℕ) (own : List ℕ) → slice_get class_features.now c ≡ Some own → All (λ f. f < length places.now) own }
    ensures { IfOk result (λ rows. AllZip (HasRow places.now) rows class_features.now) }
{
    let mut rows = Vec::new(alloc);
    for own in class_features {
        rows.push(row(alloc, places, own.as_slice())?)?;
    }
    Ok(List::from_vec(rows))
}

fn row(
    alloc: Global,
    places: &[u32],
    own: &[FeatureId],
) -> Result<List<Option<FeatureId>>, AllocError>
    requires places { All (λ place. place < length places.now) places.now }
    requires features { All (λ f. f < length places.now) own.now }
    ensures { IfOk result (λ row. HasRow places.now row own.now) }
{
    let mut row = vec![in alloc; None; places.len()]?;
    for feature in own {
        let f = *feature;
        let place = places[f.0 as usize] as usize;
        if row[place].is_none() {
            row[place] = Some(f);
        }
    }
    Ok(List::from_vec(row))
}
