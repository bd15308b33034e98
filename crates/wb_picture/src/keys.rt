ghost use Rattle.std.specs.Prelude.{◌≡◌, ◌++◌, map, IfOk, OnOk};
ghost use Rattle.wb_diagram.specs.declared.keys.AnyKey.TheVariants.{Edge as EdgeKeyOf, Node as NodeKey};
ghost use Rattle.wb_picture.specs.Picture.{all_keys};

use std::alloc::{AllocError, Global};
use wb_base::Duplicate;
use wb_diagram::{AnyKey, EdgeKey, Key};

/// The keys of the elements, and then those of the edges.
pub fn all_keys(alloc: Global, nodes: &[Key], edges: &[EdgeKey]) -> Result<Vec<AnyKey>, AllocError>
    ensures { IfOk result (λ keys. keys.items ≡ all_keys nodes.now edges.now) }
{
    let mut keys = Vec::new(alloc);
    push_nodes(&mut keys, alloc, nodes)?;
    push_edges(&mut keys, alloc, edges)?;
    Ok(keys)
}

fn push_nodes(keys: &mut Vec<AnyKey>, alloc: Global, nodes: &[Key]) -> Result<(), AllocError>
    ensures { OnOk result (keys.new.items ≡ keys.old.items ++ map NodeKey nodes.now) }
{
    for key in nodes {
        keys.push(AnyKey::Node(key.copy(alloc)?))?;
    }
    Ok(())
}

fn push_edges(keys: &mut Vec<AnyKey>, alloc: Global, edges: &[EdgeKey]) -> Result<(), AllocError>
    ensures { OnOk result (keys.new.items ≡ keys.old.items ++ map EdgeKeyOf edges.now) }
{
    for key in edges {
        keys.push(AnyKey::Edge(key.copy(alloc)?))?;
    }
    Ok(())
}
