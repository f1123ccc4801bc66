// The forest's part of a seal (FIPS 205, algorithm 16).
#![tactic(auto)]

ghost use Rattle.std.specs.Prelude.{◌≡◌, ◌++◌, ◌+◌, ◌*◌, ◌^◌, ◌≤◌, length};
ghost use Rattle.rules.specs.Places.{address, forest_secret};
ghost use Rattle.rules.specs.Calls.{Function};
ghost use Rattle.rules.specs.Trees.{path};
ghost use Rattle.rules.specs.Forest.{forest_tree, forest_seal};
ghost use Rattle.calls.specs.Hashes.{ruled_hashes};
ghost use Rattle.lists.specs.Below.{Below};
ghost use Rattle.rows.specs.Shapes.{Wood};

use addresses::{PlaceKind, address_at};
use calls::Holder;
use climbs::groves::{Grove, Pointed};
use rows::sizes::tree_bytes;
use trees::paths::path_in;

// A tree's part: the secret value of leaf i of all trees, and its path.
fn tree_seal_in(holder: &Holder, pointed: Pointed, a: u32, i: u32, out: &mut [u8])
    requires { (holder.now.hashes.kit.n ≤ 32)
        × (length out.old ≡ holder.now.hashes.kit.n + a * holder.now.hashes.kit.n) × (i + 2 ^ a ≤ 2 ^ 32) }
    ensures { out.new ≡ (ruled_hashes holder.now.hashes).hash Function.PRF
        (address (forest_secret pointed.tree pointed.leaf i)) holder.now.secret.now
        ++ (path (ruled_hashes holder.now.hashes)
        (forest_tree (ruled_hashes holder.now.hashes) pointed.tree pointed.leaf holder.now.secret.now) a 0 i).result }
{
    let secret = address_at(PlaceKind::ForestSecret, 0, pointed.tree, pointed.leaf, 0, i);
    let (value, path) = out.split_at_mut(holder.hashes.kit.n);
    holder.secret_in(secret, value);
    path_in(
        holder,
        Grove::Forest(pointed.tree, pointed.leaf),
        a,
        i,
        path,
    );
}

// All trees' parts, one after the other: in tree j the leaf that the digit j tells.
pub fn forest_seal_in(holder: &Holder, pointed: Pointed, a: u32, ds: &[u32], out: &mut [u8])
    requires wood { Wood holder.now.hashes.kit.n a (length ds.now) (length out.old) × Below (2 ^ a) ds.now }
    requires leaves_fit { (length ds.now + 1) * 2 ^ a ≤ 2 ^ 32 }
    ensures { out.new ≡ (forest_seal (ruled_hashes holder.now.hashes)
        pointed.tree pointed.leaf a holder.now.secret.now 0 ds.now).result }
{
    let step = tree_bytes(holder.hashes.kit.n, a);
    for (j, &d) in ds.iter().enumerate() {
        let base = (j as u32) << a;
        let at = j * step;
        tree_seal_in(holder, pointed, a, base + d, &mut out[at..at + step]);
    }
}
