// The roots of the forest's trees from their parts of a seal (FIPS 205, algorithm 17, lines 2 to 20), with the F calls
// counted.
#![tactic(auto)]

ghost use Rattle.std.specs.Prelude.{◌≡◌, ◌+◌, ◌*◌, ◌^◌, ◌≤◌, ◌<◌, length};
ghost use Rattle.lists.specs.Below.{Below};
ghost use Rattle.rules.specs.Calls.{Kind, Function};
ghost use Rattle.rules.specs.Forest.{forest_walk};
ghost use Rattle.counts.specs.Counts.{count};
ghost use Rattle.calls.specs.Hashes.{ruled_hashes};
ghost use Rattle.climbs.specs.Leads.{Leads};
ghost use Rattle.tree_walks.specs.Tree.{tree_run};

use addresses::{PlaceKind, address_at};
use calls::Hashes;
use climbs::groves::{Grove, Pointed};
use climbs::{Walked, climb};
use rows::sizes::tree_bytes;

// The root of a forest's tree, from its secret value and its path, at leaf i of all trees.
fn tree_root(hashes: &Hashes, pointed: Pointed, a: u32, i: u32, part: &[u8]) -> Walked
    requires { (hashes.now.kit.n ≤ 32) × (length part.now ≡ hashes.now.kit.n + a * hashes.now.kit.n) }
    ensures { Leads hashes.now.kit.n (tree_run (ruled_hashes hashes.now)
        pointed.tree pointed.leaf a i part.now) result }
{
    let n = hashes.kit.n;
    let leaf = hashes.f(
        address_at(PlaceKind::ForestNode, 0, pointed.tree, pointed.leaf, 0, i),
        &part[..n],
    );
    let value = climb(
        hashes,
        Grove::Forest(pointed.tree, pointed.leaf),
        a,
        i,
        leaf,
        &part[n..],
    );
    Walked { value, calls: 1 }
}

// The roots of all trees, one after the other; size is the number of a tree's leaves, 2^a. Returns the F calls.
pub fn roots_in(
    hashes: &Hashes,
    pointed: Pointed,
    a: u32,
    size: u32,
    ds: &[u32],
    sig: &[u8],
    out: &mut [u8],
) -> u32
    requires sizes { (hashes.now.kit.n ≤ 32) × (size ≡ 2 ^ a) × (length ds.now * size < 2 ^ 32) × Below size ds.now }
    requires lent_len { (length sig.now ≡ length ds.now * (hashes.now.kit.n + a * hashes.now.kit.n))
        × (length out.old ≡ length ds.now * hashes.now.kit.n) × (length ds.now ≤ 35) }
    ensures out_after { out.new ≡ (forest_walk (ruled_hashes hashes.now)
        pointed.tree pointed.leaf a 0 ds.now sig.now).result }
    ensures f_calls { result ≡ count (Kind.of Function.F) (forest_walk (ruled_hashes hashes.now)
        pointed.tree pointed.leaf a 0 ds.now sig.now).calls }
{
    let n = hashes.kit.n;
    let step = tree_bytes(n, a);
    let mut calls: u32 = 0;
    for (j, &d) in ds.iter().enumerate() {
        let base = j as u32 * size;
        let at = j * step;
        let up = tree_root(hashes, pointed, a, base + d, &sig[at..at + step]);
        out[j * n..j * n + n].copy_from_slice(&up.value[..n]);
        calls += up.calls;
    }
    calls
}
