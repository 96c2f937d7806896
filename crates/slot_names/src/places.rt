//! Where nodes stand among those of a method.

ghost use Rattle.std.specs.Prelude.{◌≡◌, ◌<◌, length, IfSome};
ghost use Rattle.slot_names.specs.NodePlaces.{AreInOrder, IsPlaceOf};

use op_model::LoweredMethod;

/// The place of the node at an offset, if there is one.
pub fn place_of(method: &LoweredMethod, offset: u32) -> Option<usize>
    requires { AreInOrder method.now }
    ensures place { IsPlaceOf method.now offset result }
    ensures within { IfSome result (λ place. place < length method.now.nodes) }
{
    let nodes = method.nodes.as_slice();
    nodes.binary_search_by_key(&offset, |node| node.offset).ok()
}

/// The place of a node, in 32 bits: no node stands after as many nodes as there are offsets.
pub fn place_number(method: &LoweredMethod, node: usize) -> u32
    requires order { AreInOrder method.now }
    requires there { node < length method.now.nodes }
    ensures { result ≡ node }
{
    let _offset = method.nodes.as_slice()[node].offset;
    node as u32
}
