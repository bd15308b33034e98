ghost use Rattle.std.specs.Prelude.{◌≡◌, ◌<◌, ℕ, Err, find, length, All, nat_le, nat_eq, sum_by, count_by, codes, IfSome, [], ⊤};
ghost use Rattle.std.specs.List.{list_any};
ghost use Rattle.wb_json.specs.Form.{Gives};
ghost use Rattle.wb_json.specs.Place.{at_member, at_index};
ghost use Rattle.wb_metamodel.specs.Metamodel as definition;
ghost use Rattle.wb_metamodel.specs.invariants.Tables.{TablesOf, is_other, below_table};
ghost use Rattle.wb_metamodel.specs.Checks.{wrong_class, wrong_feature, no_cycle, no_clash, opposites_match, within_limits, has_clash, has_mismatch, is_mismatched, unfit, refers_to, is_small};

use crate::lookup::Tables;
use std::alloc::Global;
use wb_base::List;
use wb_ecore::{ClassId, Enumeration, Feature, FeatureId, Kind, Package};
use wb_json::Wrong;

/// No class is its own supertype.
pub fn no_cycle(alloc: Global, elements: &Package, below: &[List<bool>]) -> Result<(), Wrong>
    requires { below.now ≡ below_table elements.now }
    ensures { Gives result (no_cycle elements.now) }
{
    match first_cycle(elements, below) {
        None => Ok(()),
        Some(class) => Err(class_wrong(alloc, class)),
    }
}

fn first_cycle(elements: &Package, below: &[List<bool>]) -> Option<usize>
    requires { below.now ≡ below_table elements.now }
    ensures { result ≡ find (λ c. definition.is_below elements.now c c) (definition.numbers (length elements.now.classes)) }
{
    for (class, row) in below.iter().enumerate() {
        if row.as_slice()[class] {
            return Some(class);
        }
    }
    None
}

fn class_wrong(alloc: Global, class: usize) -> Wrong
    ensures { Gives (Err result) (wrong_class class) }
{
    Wrong::here(alloc)
        .in_item(alloc, class)
        .in_member(alloc, "classes")
}

/// No class has two features of one name.
pub fn no_clash(alloc: Global, elements: &Package, tables: &Tables) -> Result<(), Wrong>
    requires { TablesOf elements.now tables.now }
    ensures { Gives result (no_clash elements.now) }
{
    match first_clash(elements, tables) {
        None => Ok(()),
        Some(class) => Err(class_wrong(alloc, class)),
    }
}

fn first_clash(elements: &Package, tables: &Tables) -> Option<usize>
    requires { TablesOf elements.now tables.now }
    ensures { result ≡ find (has_clash elements.now) (definition.numbers (length elements.now.classes)) }
{
    for class in 0..elements.classes.len() {
        if has_clash(elements, tables, class) {
            return Some(class);
        }
    }
    None
}

fn has_clash(elements: &Package, tables: &Tables, class: usize) -> bool
    requires tables { TablesOf elements.now tables.now }
    requires class { class < length elements.now.classes }
    ensures { result ≡ has_clash elements.now class }
{
    let row = tables.features_by_name.as_slice()[class].as_slice();
    has_other(
        row,
        tables.feature_places.as_slice(),
        tables.class_features.as_slice()[class].as_slice(),
    )
}

/// Has the row another feature at the place of the name of one of these?
fn has_other(row: &[Option<FeatureId>], places: &[u32], own: &[FeatureId]) -> bool
    requires features { All (λ f. f < length places.now) own.now }
    requires places { All (λ place. place < length row.now) places.now }
    ensures { result ≡ list_any (is_other row.now places.now) own.now }
{
    for feature in own {
        let f = *feature;
        if !names_feature(row[places[f.0 as usize] as usize], f.0 as usize) {
            return true;
        }
    }
    false
}

/// Opposites name each other and fit.
pub fn opposites_match(alloc: Global, elements: &Package) -> Result<(), Wrong>
    ensures { Gives result (opposites_match elements.now) }
{
    match first_mismatch(elements) {
        None => Ok(()),
        Some(feature) => Err(feature_wrong(alloc, elements, feature)),
    }
}

fn first_mismatch(elements: &Package) -> Option<usize>
    ensures value { result ≡ find (has_mismatch elements.now) (definition.numbers (length elements.now.features)) }
    ensures known { IfSome result (λ number. number < length elements.now.features) }
{
    for (number, feature) in elements.features.as_slice().iter().enumerate() {
        if has_mismatch(elements, number, feature) {
            return Some(number);
        }
    }
    None
}

fn has_mismatch(elements: &Package, number: usize, feature: &Feature) -> bool
    ensures { result ≡ is_mismatched elements.now number feature.now feature.now.opposite }
{
    match feature.opposite {
        None => false,
        Some(opposite) => match elements.features.as_slice().get(opposite.0 as usize) {
            None => true,
            Some(other) => unfit(number, feature, opposite, other),
        },
    }
}

/// Do a feature and its opposite not fit?
fn unfit(number: usize, feature: &Feature, opposite: FeatureId, other: &Feature) -> bool
    ensures { result ≡ unfit number feature.now opposite other.now }
{
    number == opposite.0 as usize
        || !names_feature(other.opposite, number)
        || !refers_to(other.kind, feature.owner)
        || other.containment && (feature.containment || feature.many)
}

fn names_feature(opposite: Option<FeatureId>, number: usize) -> bool
    ensures { result ≡ definition.names_feature opposite number }
{
    match opposite {
        None => false,
        Some(feature) => feature.0 as usize == number,
    }
}

fn refers_to(kind: Kind, class: ClassId) -> bool
    ensures { result ≡ refers_to kind class }
{
    match kind {
        Kind::Reference(target) => target.0 == class.0,
        Kind::Int | Kind::Bool | Kind::Text | Kind::Enum(_) => false,
    }
}

fn feature_wrong(alloc: Global, elements: &Package, number: usize) -> Wrong
    requires { number < length elements.now.features }
    ensures { Gives (Err result) (wrong_feature elements.now number) }
{
    let features = elements.features.as_slice();
    let owner = features[number].owner;
    wrong_at(alloc, owner, count_of(&features[..number], owner))
}

/// How many of these features a class declares.
fn count_of(features: &[Feature], class: ClassId) -> usize
    ensures { result ≡ count_by (λ feature. nat_eq feature.owner class) features.now }
{
    features
        .iter()
        .filter(|feature| feature.owner.0 == class.0)
        .count()
}

/// A feature is wrong, by its class and its place in it.
fn wrong_at(alloc: Global, class: ClassId, place: usize) -> Wrong
    ensures { Gives {A = ⊤} (Err result) (at_member (codes "classes") (at_index class (at_member (codes "features") (at_index place (Err []))))) }
{
    Wrong::here(alloc)
        .in_item(alloc, place)
        .in_member(alloc, "features")
        .in_item(alloc, class.0 as usize)
        .in_member(alloc, "classes")
}

/// The limits of a metamodel.
pub fn within_limits(alloc: Global, elements: &Package) -> Result<(), Wrong>
    ensures { Gives result (within_limits elements.now) }
{
    if is_small(elements) {
        Ok(())
    } else {
        Err(Wrong::here(alloc))
    }
}

fn is_small(elements: &Package) -> bool
    ensures { result ≡ is_small elements.now }
{
    elements.classes.len() <= 1000
        && elements.features.len() <= 10_000
        && elements.enumerations.len() <= 1000
        && has_few_literals(elements.enumerations.as_slice())
}

fn has_few_literals(enumerations: &[Enumeration]) -> bool
    ensures { result ≡ nat_le (sum_by (λ enumeration. length enumeration.literals) enumerations.now) 10000 }
{
    let mut room: usize = 10_000;
    for enumeration in enumerations {
        if enumeration.literals.len() > room {
            return false;
        }
        room -= enumeration.literals.len();
    }
    true
}
