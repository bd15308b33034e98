ghost use Rattle.std.specs.Prelude.{◌≡◌, ℕ, ◌++◌, ◌∷◌, ◌^◌, ◌<◌, ◌↔◌, ◌==◌, ◌≢◌, All, IfOk, IfSome, IsNone, IsTrue, Some, codes, decimal, length, map, option_map};
ghost use Rattle.std.specs.List.{slice_split};
ghost use Rattle.wb_diagram.specs.Keys.{HasNumbers, IsNumbered, IsPath, IsWritable, JoinsPaths, Spells, any_key_text, edge_key_text, key_text, pair_text, semantic_pair};
ghost use Rattle.wb_diagram.specs.declared.keys.Pair.{Pair};
ghost use Rattle.wb_diagram.specs.declared.keys.Key.{Key};
ghost use Rattle.wb_diagram.specs.declared.keys.EdgeKey.{EdgeKey};
ghost use Rattle.wb_diagram.specs.declared.keys.AnyKey.{AnyKey};

use crate::key_texts::write_key;
use crate::keys::{AnyKey, EdgeKey, Key, Pair};
use std::alloc::{AllocError, Global};
use wb_base::List;
use wb_metamodel::ObjectId;

// The number that decimal digits write. It is found where they have no leading zero, and in other texts perhaps.
fn read_number(text: &str) -> Option<u32>
    ensures complete { (n : ℕ) → n < 2 ^ 32 → text.now ≡ decimal n → result ≡ Some n }
    ensures small { IfSome result (λ n. n < 2 ^ 32) }
{
    text.parse().ok()
}

// The pair of two numbers.
fn pair_of(mapping: &str, object: &str) -> Option<Pair>
    ensures complete { (pair : Pair) → IsNumbered pair → mapping.now ≡ decimal pair.mapping
        → object.now ≡ decimal pair.object → result ≡ Some pair }
    ensures numbered { IfSome result IsNumbered }
{
    let mapping = read_number(mapping)?;
    let object = read_number(object)?;
    Some(Pair {
        mapping,
        object: ObjectId(object),
    })
}

// The pair that a text writes.
fn read_pair(text: &str) -> Option<Pair>
    ensures complete { (pair : Pair) → IsNumbered pair → text.now ≡ pair_text pair → result ≡ Some pair }
    ensures numbered { IfSome result IsNumbered }
{
    match text.split_once('.') {
        None => None,
        Some((mapping, object)) => pair_of(mapping, object),
    }
}

// The parts of a text between its dashes.
fn parts<'a>(alloc: Global, text: &'a str) -> Result<Vec<&'a str>, AllocError>
    ensures { IfOk result (λ parts. map (λ part. part.now) parts.items ≡ slice_split (λ b. b == 45) text.now) }
{
    text.split('-').collect(alloc)
}

// The path that a text writes.
fn read_path(alloc: Global, text: &str) -> Result<Option<Key>, AllocError>
    ensures complete { IfOk result (λ found. (key : Key) → 0 < length key.pairs → All IsNumbered key.pairs
        → text.now ≡ key_text key → found ≡ Some key) }
    ensures numbered { IfOk result (λ found. IfSome found (λ key. All IsNumbered key.pairs)) }
{
    let parts = parts(alloc, text)?;
    let mut pairs = List::new(alloc);
    for part in &parts {
        match read_pair(part) {
            Some(pair) => pairs.push(pair)?,
            None => return Ok(None),
        }
    }
    Ok(Some(Key { pairs }))
}

// The key of an edge, of which the pair is known already.
fn read_ends(alloc: Global, own: Pair, ends: &str) -> Result<Option<EdgeKey>, AllocError>
    requires { IsNumbered own }
    ensures complete { IfOk result (λ found. (key : EdgeKey) → JoinsPaths key → HasNumbers (AnyKey.Edge key)
        → own ≡ semantic_pair key → ends.now ≡ key_text key.source ++ 58 ∷ key_text key.target → found ≡ Some key) }
    ensures numbered { IfOk result (λ found. IfSome found (λ key. HasNumbers (AnyKey.Edge key))) }
{
    let Some((source, target)) = ends.split_once(':') else {
        return Ok(None);
    };
    let source = read_path(alloc, source)?;
    let target = read_path(alloc, target)?;
    Ok(joined(own, source, target))
}

// The key of an edge, if both its ends were read.
fn joined(own: Pair, source: Option<Key>, target: Option<Key>) -> Option<EdgeKey>
    ensures complete { (key : EdgeKey) → own ≡ semantic_pair key → source ≡ Some key.source → target ≡ Some key.target
        → result ≡ Some key }
    ensures parts { IfSome result (λ key. (own ≡ semantic_pair key) × (source ≡ Some key.source) × (target ≡ Some key.target)) }
{
    match (source, target) {
        (Some(source), Some(target)) => Some(EdgeKey {
            mapping: own.mapping,
            object: own.object,
            source,
            target,
        }),
        _ => None,
    }
}

// The key of an edge, of which the pair and the ends are known as texts.
fn read_edge(alloc: Global, own: &str, ends: &str) -> Result<Option<EdgeKey>, AllocError>
    ensures complete { IfOk result (λ found. (key : EdgeKey) → JoinsPaths key → HasNumbers (AnyKey.Edge key)
        → own.now ≡ pair_text (semantic_pair key) → ends.now ≡ key_text key.source ++ 58 ∷ key_text key.target
        → found ≡ Some key) }
    ensures numbered { IfOk result (λ found. IfSome found (λ key. HasNumbers (AnyKey.Edge key))) }
{
    match read_pair(own) {
        None => Ok(None),
        Some(own) => read_ends(alloc, own, ends),
    }
}

// Is this the text of that key?
fn is_written_so(alloc: Global, key: &AnyKey, text: &[u8]) -> Result<bool, AllocError>
    ensures { IfOk result (λ same. IsTrue same ↔ (IsWritable key.now × (text.now ≡ any_key_text key.now))) }
{
    if !is_writable(key) {
        return Ok(false);
    }
    let written = write_key(alloc, key)?;
    Ok(written.as_slice() == text)
}

// Has the path 1 to 32 pairs?
fn is_path(key: &Key) -> bool
    ensures { IsTrue result ↔ IsPath key.now }
{
    let length = key.pairs.len();
    0 < length && length <= 32
}

fn is_writable(key: &AnyKey) -> bool
    ensures { IsTrue result ↔ IsWritable key.now }
{
    match key {
        AnyKey::Node(key) => is_path(key),
        AnyKey::Edge(key) => is_path(&key.source) && is_path(&key.target),
    }
}

fn node(key: Option<Key>) -> Option<AnyKey>
    ensures { result ≡ option_map (λ path. AnyKey.Node path) key }
{
    key.map(AnyKey::Node)
}

fn edge(key: Option<EdgeKey>) -> Option<AnyKey>
    ensures { result ≡ option_map (λ ends. AnyKey.Edge ends) key }
{
    key.map(AnyKey::Edge)
}

// The key that a text would be the written form of, if it is one. Other texts may give a key as well.
fn read_loosely(alloc: Global, text: &str) -> Result<Option<AnyKey>, AllocError>
    ensures complete { IfOk result (λ found. (key : AnyKey) → Spells text.now key → found ≡ Some key) }
    ensures numbered { IfOk result (λ found. IfSome found HasNumbers) }
{
    match text.split_once(':') {
        None => Ok(node(read_path(alloc, text)?)),
        Some((own, ends)) => Ok(edge(read_edge(alloc, own, ends)?)),
    }
}

/// The key that a text spells, or `None` where it spells none.
pub fn read_key(alloc: Global, text: &[u8]) -> Result<Option<AnyKey>, AllocError>
    ensures found { IfOk result (λ found. IfSome found (Spells text.now)) }
    ensures none { IfOk result (λ found. IsNone found → (key : AnyKey) → ¬ Spells text.now key) }
{
    let Ok(written) = std::str::from_utf8(text) else {
        return Ok(None);
    };
    match read_loosely(alloc, written)? {
        None => Ok(None),
        Some(key) => if_written_so(alloc, key, text),
    }
}

// The key, if this is its text.
fn if_written_so(alloc: Global, key: AnyKey, text: &[u8]) -> Result<Option<AnyKey>, AllocError>
    ensures found { IfOk result (λ found. IfSome found (λ same. (same ≡ key) × IsWritable key × (text.now ≡ any_key_text key))) }
    ensures none { IfOk result (λ found. IsNone found → IsWritable key → text.now ≢ any_key_text key) }
{
    if is_written_so(alloc, &key, text)? {
        Ok(Some(key))
    } else {
        Ok(None)
    }
}

/// A text spells one key at most: keys that are written alike are equal.
pub fn spells_one_key(text: &[u8], left: &AnyKey, right: &AnyKey)
    requires left { Spells text.now left.now }
    requires right { Spells text.now right.now }
    ensures { left.now ≡ right.now }
{}
