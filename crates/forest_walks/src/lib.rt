// The forest from its part of a seal (FIPS 205, algorithm 17).
#![tactic(auto)]

ghost use Rattle.std.specs.Prelude.{◌^◌, length};
ghost use Rattle.rules.specs.Forest.{forest_root};
ghost use Rattle.calls.specs.Hashes.{ruled_hashes};
ghost use Rattle.climbs.specs.Leads.{Leads};
ghost use Rattle.lists.specs.Below.{Below};
ghost use Rattle.rows.specs.Shapes.{Wood};

use addresses::{PlaceKind, address_at};
use calls::Hashes;
use climbs::Walked;
use climbs::groves::Pointed;
use tree_walks::roots_in;

// What layer 0 seals, from the forest's part of a seal.
pub fn forest_root(hashes: &Hashes, pointed: Pointed, a: u32, ds: &[u32], sig: &[u8]) -> Walked
    requires { Wood hashes.now.kit.n a (length ds.now) (length sig.now) × Below (2 ^ a) ds.now }
    ensures { Leads hashes.now.kit.n (forest_root (ruled_hashes hashes.now) pointed.tree pointed.leaf a
        ds.now sig.now) result }
{
    let leaves = 1u32 << a;
    let size = ds.len() * hashes.kit.n;
    let mut roots = [0u8; 1120];
    let roots = &mut roots[..size];
    let calls = roots_in(hashes, pointed, a, leaves, ds, sig, roots);
    let value = hashes.t(
        address_at(PlaceKind::ForestRoots, 0, pointed.tree, pointed.leaf, 0, 0),
        roots,
    );
    Walked { value, calls }
}
