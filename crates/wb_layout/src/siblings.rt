ghost use Rattle.std.specs.Prelude.{◌≡◌, ◌+◌, ◌^◌, ◌<◌, ◌-◌, if◌then◌else◌, IfOk, OnOk, take, length};
ghost use Rattle.wb_diagram.specs.declared.keys.Key.{Key};
ghost use Rattle.wb_layout.specs.Grid.{parent_of};
ghost use Rattle.wb_layout.specs.Orders.{same_key};
ghost use Rattle.wb_layout.specs.invariants.Seen.{seen_of};

use std::alloc::{AllocError, Global};
use std::collections::BTreeMap;
use wb_base::List;
use wb_diagram::{Key, Pair};

/// How many children of each parent were seen.
#[derive(Drop)]
pub(crate) struct Siblings {
    seen: BTreeMap<Key, u32>,
}

impl Siblings {
    pub(crate) fn new(alloc: Global) -> Siblings
        ensures { (parent : Key) → seen_of result parent ≡ 0 }
    {
        Siblings {
            seen: BTreeMap::new(alloc),
        }
    }

    // How many children of its parent were seen before this one, which is seen now.
    pub(crate) fn see(&mut self, alloc: Global, key: &Key) -> Result<u32, AllocError>
        requires { seen_of self.old (parent_of key.now) < 2 ^ 32 - 1 }
        ensures before { IfOk result (λ number. number ≡ seen_of self.old (parent_of key.now)) }
        ensures counted { OnOk result ((parent : Key) → seen_of self.new parent
            ≡ seen_of self.old parent + (if same_key (parent_of key.now) parent then 1 else 0)) }
    {
        let parent = parent(alloc, key)?;
        let number = self.number(&parent);
        self.seen.insert(parent, number + 1)?;
        Ok(number)
    }

    fn number(&self, parent: &Key) -> u32
        ensures { result ≡ seen_of self.now parent.now }
    {
        self.seen.get(parent).copied().unwrap_or(0)
    }
}

// The key of what an element stands in.
fn parent(alloc: Global, key: &Key) -> Result<Key, AllocError>
    ensures { IfOk result (λ parent. parent ≡ parent_of key.now) }
{
    let pairs = Vec::from_slice(alloc, all_but_last(key.pairs.as_slice()))?;
    Ok(Key {
        pairs: List::from_vec(pairs),
    })
}

fn all_but_last(pairs: &[Pair]) -> &[Pair]
    ensures { result.now ≡ take (length pairs.now - 1) pairs.now }
{
    &pairs[..pairs.len().saturating_sub(1)]
}
