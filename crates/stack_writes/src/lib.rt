// All layers' parts of a seal (FIPS 205, algorithm 12).
#![tactic(auto)]

ghost use Rattle.std.specs.Prelude.{◌≡◌, ◌+◌, ◌-◌, ◌^◌, ◌≤◌, ◌<◌, length, take};
ghost use Rattle.rules.specs.Layers.{layers_seal};
ghost use Rattle.calls.specs.Hashes.{ruled_hashes};
ghost use Rattle.rows.specs.Shapes.{Stack};

use calls::Holder;
use chains::Spot;
use climbs::groves::Pointed;
use layer_writes::{layer_seal_in, layer_up_in};
use rows::sizes::layer_bytes;

// All layers' parts, for the value m that the leaf pointed to seals; each layer above seals the root below. Size
// is the number of a tree's leaves, 2^h'.
pub fn layers_seal_in(
    holder: &Holder,
    hp: u32,
    size: u64,
    d: u32,
    pointed: Pointed,
    m: [u8; 32],
    out: &mut [u8],
)
    requires { Stack holder.now.hashes.kit.n hp size d (length out.old) × (size + size ≤ 2 ^ 32)
        × (pointed.leaf < size) }
    ensures { out.new ≡ (layers_seal (ruled_hashes holder.now.hashes) hp holder.now.secret.now (d - 1) 0
        pointed.tree pointed.leaf (take holder.now.hashes.kit.n m)).result }
{
    let n = holder.hashes.kit.n;
    let step = layer_bytes(n, hp);
    let top = d - 1;
    let mut v = m;
    let mut t = pointed.tree;
    let mut k = pointed.leaf;
    for j in 0..top {
        let at = j as usize * step;
        let spot = Spot {
            layer: j,
            tree: t,
            pair: k,
        };
        v = layer_up_in(holder, spot, hp, &v[..n], &mut out[at..at + step]);
        k = (t % size) as u32;
        t /= size;
    }
    let at = top as usize * step;
    let spot = Spot {
        layer: top,
        tree: t,
        pair: k,
    };
    layer_seal_in(holder, spot, hp, &v[..n], &mut out[at..]);
}
