ghost use Rattle.std.specs.Prelude.{◌≡◌, [], ◌∷◌, List as Listed, ℕ, IfOk, length};
ghost use Rattle.wb_diagram.specs.Keys.{JoinsPaths};
ghost use Rattle.wb_diagram.specs.Diagrams.{IsWritableElement, IsWritableEdge, IsWritableDiagram};

use std::alloc::{AllocError, Global};
use std::test::Fail;
use wb_diagram::{
    AnyKey, Diagram, Edge, EdgeKey, Element, Key, List, Look, ObjectId, Pair, Text, read_key,
    write_diagram, write_edge, write_element, write_key,
};

/// The names of the mappings.
fn names(alloc: Global) -> Result<Vec<Text>, AllocError> {
    let mut names = Vec::new(alloc);
    for name in ["Book", "Author", "Work", "Member", "Loan"] {
        names.push(Text::from_str(alloc, name)?)?;
    }
    Ok(names)
}

fn pair(mapping: u32, object: u32) -> Pair
    ensures { result ≡ record { mapping = mapping; object = object } }
{
    Pair {
        mapping,
        object: ObjectId(object),
    }
}

fn top_key(alloc: Global, own: Pair) -> Result<Key, AllocError>
    ensures { IfOk result (λ key. key.pairs ≡ own ∷ []) }
{
    let mut pairs = List::new(alloc);
    pairs.push(own)?;
    Ok(Key { pairs })
}

fn inner_key(alloc: Global, parent: Pair, own: Pair) -> Result<Key, AllocError>
    ensures { IfOk result (λ key. key.pairs ≡ parent ∷ own ∷ []) }
{
    let mut pairs = List::new(alloc);
    pairs.push(parent)?;
    pairs.push(own)?;
    Ok(Key { pairs })
}

fn look(alloc: Global, shape: &str, color: &str, label: &str) -> Result<Look, AllocError> {
    Ok(Look {
        style: 0,
        shape: Text::from_str(alloc, shape)?,
        color: Text::from_str(alloc, color)?,
        label: Text::from_str(alloc, label)?,
    })
}

// A node of mapping 0.
#[tactic(auto, unfolding(wb_diagram::specs::Keys::own_pair))]
fn book(alloc: Global, object: u32, label: &str) -> Result<Element, AllocError>
    ensures { IfOk result (λ e. (names : Listed (Listed ℕ)) → length names ≡ 5 → IsWritableElement names e) }
{
    let key = top_key(alloc, pair(0, object))?;
    let look = look(alloc, "square", "white", label)?;
    Ok(Element {
        key,
        look,
        position: None,
    })
}

// An item of mapping 2 in a container of mapping 1.
#[tactic(auto, unfolding(wb_diagram::specs::Keys::own_pair))]
fn work(alloc: Global, position: Option<(i64, i64)>) -> Result<Element, AllocError>
    ensures { IfOk result (λ e. (names : Listed (Listed ℕ)) → length names ≡ 5 → IsWritableElement names e) }
{
    let key = inner_key(alloc, pair(1, 6), pair(2, 2))?;
    let look = look(alloc, "item", "white", "say \"Dune\"")?;
    Ok(Element {
        key,
        look,
        position,
    })
}

fn loan_key(alloc: Global) -> Result<EdgeKey, AllocError>
    ensures paths { IfOk result JoinsPaths }
    ensures mapping { IfOk result (λ key. key.mapping ≡ 4) }
{
    Ok(EdgeKey {
        mapping: 4,
        object: ObjectId(5),
        source: top_key(alloc, pair(0, 2))?,
        target: top_key(alloc, pair(3, 4))?,
    })
}

fn loan(alloc: Global) -> Result<Edge, AllocError>
    ensures { IfOk result (λ e. (names : Listed (Listed ℕ)) → length names ≡ 5 → IsWritableEdge names e) }
{
    let key = loan_key(alloc)?;
    let look = look(alloc, "line", "black", "")?;
    Ok(Edge { key, look })
}

fn two<T: Drop>(alloc: Global, first: T, second: T) -> Result<List<T>, AllocError>
    ensures { IfOk result (λ list. list ≡ first ∷ second ∷ []) }
{
    let mut list = List::new(alloc);
    list.push(first)?;
    list.push(second)?;
    Ok(list)
}

const TWO_BOOKS: &str =
    r#"{"edges":[],"elements":[{"color":"white","key":"0.2","label":"Dune","mapping":"Book","object":2,"parent":null,"position":null,"shape":"square"},{"color":"white","key":"0.3","label":"","mapping":"Book","object":3,"parent":null,"position":null,"shape":"square"}],"filters":[],"layers":[],"problems":[],"revision":0}"#;

const ITEM: &str =
    r#"{"color":"white","key":"1.6-2.2","label":"say \"Dune\"","mapping":"Work","object":2,"parent":"1.6","position":[7,-8],"shape":"item"}"#;

const EDGE: &str =
    r#"{"color":"black","key":"4.5:0.2:3.4","label":"","mapping":"Loan","object":5,"shape":"line","source":"0.2","target":"3.4"}"#;

fn two_books(alloc: Global) -> Result<Diagram, AllocError>
    ensures { IfOk result (λ d. (names : Listed (Listed ℕ)) → length names ≡ 5 → IsWritableDiagram names d) }
{
    let dune = book(alloc, 2, "Dune")?;
    let untitled = book(alloc, 3, "")?;
    Ok(Diagram {
        elements: two(alloc, dune, untitled)?,
        edges: List::new(alloc),
        filters: List::new(alloc),
        layers: List::new(alloc),
        problems: List::new(alloc),
        revision: 0,
    })
}

#[test]
fn draws_a_node_for_each_book(rt: HostRuntime) -> Result<(), Fail> {
    let names = names(rt.alloc())?;
    assert_eq!(rt; names.len(), 5);
    let diagram = two_books(rt.alloc())?;
    let text = write_diagram(rt.alloc(), &diagram, names.as_slice())?;
    assert_eq!(rt; text.as_str(), TWO_BOOKS);
    Ok(())
}

#[test]
fn writes_an_item(rt: HostRuntime) -> Result<(), Fail> {
    let names = names(rt.alloc())?;
    assert_eq!(rt; names.len(), 5);
    let item = work(rt.alloc(), Some((7, -8)))?;
    let text = write_element(rt.alloc(), &item, names.as_slice())?;
    assert_eq!(rt; text.as_str(), ITEM);
    Ok(())
}

#[test]
fn writes_an_edge(rt: HostRuntime) -> Result<(), Fail> {
    let names = names(rt.alloc())?;
    assert_eq!(rt; names.len(), 5);
    let loan = loan(rt.alloc())?;
    let text = write_edge(rt.alloc(), &loan, names.as_slice())?;
    assert_eq!(rt; text.as_str(), EDGE);
    Ok(())
}

#[test]
fn writes_a_key(rt: HostRuntime) -> Result<(), Fail> {
    let key = AnyKey::Edge(loan_key(rt.alloc())?);
    let text = write_key(rt.alloc(), &key)?;
    assert_eq!(rt; text.as_str(), "4.5:0.2:3.4");
    Ok(())
}

#[test]
fn reads_the_texts_of_keys_alone(rt: HostRuntime) -> Result<(), Fail> {
    for (text, is_key) in [
        ("1.6-2.2", true),
        ("4.5:0.2:3.4", true),
        ("00.2", false),
        ("0.4294967296", false),
        ("4.5:0.2", false),
    ] {
        let key = read_key(rt.alloc(), text.as_bytes())?;
        assert_eq!(rt; key.is_some(), is_key, "{text}");
    }
    Ok(())
}
