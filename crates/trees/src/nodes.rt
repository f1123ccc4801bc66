// The leaves and nodes of a key's own hash trees (FIPS 205, algorithms 9, 14 and 15).
ghost use Rattle.std.specs.Prelude.{◌≡◌, ◌+◌, ◌*◌, ◌^◌, ◌≤◌, take};
ghost use Rattle.rules.specs.Forest.{forest_leaf};
ghost use Rattle.rules.specs.Trees.{node};
ghost use Rattle.calls.specs.Hashes.{ruled_hashes};
ghost use Rattle.climbs.specs.Groves.{tree_of};

use addresses::{PlaceKind, address_at};
use calls::Holder;
use chains::Spot;
use climbs::groves::{Grove, Pointed, node_address};
use leaves::leaf;

// Leaf i of a forest: F of its secret value.
#[tactic(auto, unfolding(rules::specs::Forest::forest_leaf))]
fn forest_leaf(holder: &Holder, pointed: Pointed, i: u32) -> [u8; 32]
    requires { holder.now.hashes.kit.n ≤ 32 }
    ensures { take holder.now.hashes.kit.n result
        ≡ (forest_leaf (ruled_hashes holder.now.hashes) pointed.tree pointed.leaf holder.now.secret.now i).result }
{
    let mut x = [0u8; 32];
    let io = &mut x[..holder.hashes.kit.n];
    holder.secret_in(
        address_at(PlaceKind::ForestSecret, 0, pointed.tree, pointed.leaf, 0, i),
        io,
    );
    holder.hashes.f_in(
        address_at(PlaceKind::ForestNode, 0, pointed.tree, pointed.leaf, 0, i),
        io,
    );
    x
}

// Leaf i of a grove.
fn leaf_of(holder: &Holder, grove: Grove, i: u32) -> [u8; 32]
    requires { holder.now.hashes.kit.n ≤ 32 }
    ensures { take holder.now.hashes.kit.n result
        ≡ ((tree_of (ruled_hashes holder.now.hashes) holder.now.secret.now grove).leaf i).result }
{
    match grove {
        Grove::Layer(layer, tree) => leaf(
            holder,
            Spot {
                layer,
                tree,
                pair: i,
            },
        ),
        Grove::Forest(tree, leaf) => forest_leaf(holder, Pointed { tree, leaf }, i),
    }
}

// The node at height z and index i, by recursion on the height, ending at a leaf.
#[tactic(auto, unfolding(rules::specs::Trees::node))]
pub fn node(holder: &Holder, grove: Grove, z: u32, i: u32) -> [u8; 32]
    requires { (holder.now.hashes.kit.n ≤ 32) × ((i + 1) * 2 ^ z ≤ 2 ^ 32) }
    ensures { take holder.now.hashes.kit.n result ≡ (node (ruled_hashes holder.now.hashes)
        (tree_of (ruled_hashes holder.now.hashes) holder.now.secret.now grove) z i).result }
{
    let n = holder.hashes.kit.n;
    if z == 0 {
        leaf_of(holder, grove, i)
    } else {
        let left = node(holder, grove, z - 1, 2 * i);
        let right = node(holder, grove, z - 1, 2 * i + 1);
        let hashes = &holder.hashes;
        hashes.h(node_address(grove, z, i), &left[..n], &right[..n])
    }
}
