ghost use Rattle.std.specs.Prelude.{◌≡◌, List, ℕ, Bool, map, nat_eq};
ghost use Rattle.std.specs.List.{list_any};
ghost use Rattle.std.specs.Cmp.Lexicographic.{pointwise};
ghost use Rattle.serde_json.specs.View.{view, members_view};
ghost use Rattle.wb_json.specs.Form.{Gives, listed, is_name, is_one_of, names_pass, object_with};

use crate::choices::is_same;
use crate::wrong::Wrong;
use serde_json::{Map, Value};
use std::alloc::Global;
use wb_base::is_name;

/// An object with no member but these.
#[tactic(auto, unfolding(crate::specs::Form::object_with))]
pub fn listed(alloc: Global, value: &Value, names: &[&str]) -> Result<(), Wrong>
    ensures { Gives result (listed (map (λ name. name.now) names.now) (view value.now)) }
{
    match value.as_object() {
        Some(members) => only(alloc, members, &OneOf(names)),
        None => Err(Wrong::here(alloc)),
    }
}

/// The names that an object's members may have.
pub(crate) trait MemberNames {
    ghost passes: { Self → List ℕ → Bool };

    fn passes(&self, name: &str) -> bool
        ensures { result ≡ passes self.now name.now };
}

/// One of these names.
#[derive(Drop)]
struct OneOf<'a>(&'a [&'a str]);

impl MemberNames for OneOf<'_> {
    ghost passes = { λ names. is_one_of (map (λ name. name.now) names.0.now) };

    fn passes(&self, name: &str) -> bool {
        is_one_of(self.0, name)
    }
}

/// Whatever is a name.
#[derive(Drop)]
pub(crate) struct Free;

impl MemberNames for Free {
    ghost passes = { λ _ name. is_name name };

    fn passes(&self, name: &str) -> bool {
        is_name(name)
    }
}

/// No member has another name than these; the first that has is wrong.
pub(crate) fn only<N: MemberNames>(
    alloc: Global,
    members: &Map<String, Value>,
    names: &N,
) -> Result<(), Wrong>
    ensures { Gives result (names_pass (N.passes names.now) (members_view members.now.entries)) }
{
    for (name, _) in members.iter() {
        if !names.passes(name.as_str()) {
            return Err(Wrong::here(alloc).in_member(alloc, name.as_str()));
        }
    }
    Ok(())
}

#[tactic(auto, using(crate::proofs::Turns::list_any_map))]
fn is_one_of(names: &[&str], name: &str) -> bool
    ensures { result ≡ is_one_of (map (λ name. name.now) names.now) name.now }
{
    is_among(names, name)
}

fn is_among(names: &[&str], name: &str) -> bool
    ensures { result ≡ list_any (λ listed. pointwise nat_eq listed.now name.now) names.now }
{
    names.iter().any(|listed| is_same(listed, name))
}
