// The layers from their parts of a seal (FIPS 205, algorithms 11 and 13).
#![tactic(auto)]

ghost use Rattle.std.specs.Prelude.{◌≡◌, ◌+◌, ◌-◌, ◌*◌, ◌≤◌, length, take};
ghost use Rattle.rules.specs.Chains.{chains};
ghost use Rattle.rules.specs.Layers.{layer_root, layers_root};
ghost use Rattle.calls.specs.Hashes.{ruled_hashes};
ghost use Rattle.climbs.specs.Leads.{Leads};
ghost use Rattle.rows.specs.Shapes.{Stack};

use calls::Hashes;
use chains::Spot;
use climbs::groves::{Grove, Pointed};
use climbs::{Walked, climb};
use leaf_walks::leaf_from;
use rows::sizes::{chain_bytes, layer_bytes};

// The root of a layer's tree, from its part of a seal, for the value m that leaf i seals.
pub fn layer_root(hashes: &Hashes, spot: Spot, hp: u32, sig: &[u8], m: &[u8]) -> Walked
    requires { (hashes.now.kit.n ≤ 32) × (length m.now ≡ hashes.now.kit.n)
        × (length sig.now ≡ chains hashes.now.kit.n * hashes.now.kit.n + hp * hashes.now.kit.n) }
    ensures { Leads hashes.now.kit.n (layer_root (ruled_hashes hashes.now) hp spot.layer spot.tree spot.pair
        sig.now m.now) result }
{
    let size = chain_bytes(hashes.kit.n);
    let low = leaf_from(hashes, spot, &sig[..size], m);
    let value = climb(
        hashes,
        Grove::Layer(spot.layer, spot.tree),
        hp,
        spot.pair,
        low.value,
        &sig[size..],
    );
    Walked {
        value,
        calls: low.calls,
    }
}

// The topmost root, from all layers' parts of a seal, for the value m that the leaf pointed to seals; size is the
// number of a tree's leaves, 2^h'.
pub fn layers_root(
    hashes: &Hashes,
    hp: u32,
    size: u64,
    d: u32,
    pointed: Pointed,
    m: [u8; 32],
    sig: &[u8],
) -> Walked
    requires { Stack hashes.now.kit.n hp size d (length sig.now) }
    ensures { Leads hashes.now.kit.n (layers_root (ruled_hashes hashes.now) hp (d - 1) 0 pointed.tree pointed.leaf
        (take hashes.now.kit.n m) sig.now) result }
{
    let n = hashes.kit.n;
    let step = layer_bytes(n, hp);
    let mut value = m;
    let mut t = pointed.tree;
    let mut k = pointed.leaf;
    let mut calls: u32 = 0;
    for j in 0..d {
        let at = j as usize * step;
        let spot = Spot {
            layer: j,
            tree: t,
            pair: k,
        };
        let up = layer_root(hashes, spot, hp, &sig[at..at + step], &value[..n]);
        value = up.value;
        calls += up.calls;
        k = (t % size) as u32;
        t /= size;
    }
    Walked { value, calls }
}
