ghost use Rattle.std.specs.Prelude.{◌≡◌};
ghost use Rattle.wb_spec_check.specs.Units.{mapping_of_key};

use wb_diagram::AnyKey;

/// The number of a key's mapping; a node's key without pairs has none.
pub fn mapping_number(key: &AnyKey) -> Option<u32>
    ensures { result ≡ mapping_of_key key.now }
{
    match key {
        AnyKey::Node(key) => key.pairs.as_slice().last().map(|own| own.mapping),
        AnyKey::Edge(key) => Some(key.mapping),
    }
}
