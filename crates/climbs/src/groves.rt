// Which hash tree a node stands in, and the address of a node.
ghost use Rattle.std.specs.Prelude.{◌≡◌};
ghost use Rattle.rules.specs.Places.{address};
ghost use Rattle.addresses.specs.Addresses.{bytes_of};
ghost use Rattle.climbs.specs.Groves.{place_of};

use addresses::{Address, PlaceKind, address_at};

// A leaf of layer 0, to which a digest points: its tree, and its number in the tree. The forest of a seal stands there.
#[derive(Clone, Copy)]
pub struct Pointed {
    pub tree: u64,
    pub leaf: u32,
}

// Tree number t of layer l, or the forest at tree t and key pair p.
#[derive(Clone, Copy)]
pub enum Grove {
    Layer(u32, u64),
    Forest(u64, u32),
}

// The address of the node at height z and index i.
pub fn node_address(grove: Grove, z: u32, i: u32) -> Address
    ensures { bytes_of result ≡ address (place_of grove z i) }
{
    match grove {
        Grove::Layer(l, t) => address_at(PlaceKind::TreeNode, l, t, 0, z, i),
        Grove::Forest(t, p) => address_at(PlaceKind::ForestNode, 0, t, p, z, i),
    }
}
