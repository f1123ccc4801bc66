// A layer's part of a seal (FIPS 205, algorithm 10), and the root that it leads to.
#![tactic(auto)]

ghost use Rattle.std.specs.Prelude.{◌≡◌, ◌+◌, ◌*◌, ◌^◌, ◌≤◌, length, take};
ghost use Rattle.rules.specs.Chains.{chains};
ghost use Rattle.rules.specs.Layers.{layer_seal, layer_root};
ghost use Rattle.calls.specs.Hashes.{ruled_hashes};

use calls::Holder;
use chains::{Spot, shown_in};
use climbs::groves::Grove;
use digits::chain_digits;
use layer_walks::layer_root;
use rows::sizes::{chain_bytes, chain_count};
use trees::paths::path_in;

// A layer's part: what the chains of leaf i show for the value m, and the leaf's path.
#[tactic(auto, unfolding(rules::specs::Layers::layer_seal))]
pub fn layer_seal_in(holder: &Holder, spot: Spot, hp: u32, m: &[u8], out: &mut [u8])
    requires { (holder.now.hashes.kit.n ≤ 32) × (length m.now ≡ holder.now.hashes.kit.n) × (spot.pair + 2 ^ hp ≤ 2 ^ 32)
        × (length out.old ≡ chains holder.now.hashes.kit.n * holder.now.hashes.kit.n + hp * holder.now.hashes.kit.n) }
    ensures { out.new ≡ (layer_seal (ruled_hashes holder.now.hashes) hp holder.now.secret.now
        spot.layer spot.tree spot.pair m.now).result }
{
    let mut digits = [0u32; 67];
    let digits = &mut digits[..chain_count(holder.hashes.kit.n)];
    chain_digits(m, digits);
    let (shown, path) = out.split_at_mut(chain_bytes(holder.hashes.kit.n));
    shown_in(holder, spot, digits, shown);
    path_in(
        holder,
        Grove::Layer(spot.layer, spot.tree),
        hp,
        spot.pair,
        path,
    );
}

// A layer's part, and the root that it leads to, which the layer above seals.
pub fn layer_up_in(holder: &Holder, spot: Spot, hp: u32, m: &[u8], out: &mut [u8]) -> [u8; 32]
    requires { (holder.now.hashes.kit.n ≤ 32) × (length m.now ≡ holder.now.hashes.kit.n) × (spot.pair + 2 ^ hp ≤ 2 ^ 32)
        × (length out.old ≡ chains holder.now.hashes.kit.n * holder.now.hashes.kit.n + hp * holder.now.hashes.kit.n) }
    ensures out_after { out.new ≡ (layer_seal (ruled_hashes holder.now.hashes) hp holder.now.secret.now
        spot.layer spot.tree spot.pair m.now).result }
    ensures result_value { take holder.now.hashes.kit.n result
        ≡ (layer_root (ruled_hashes holder.now.hashes) hp spot.layer spot.tree spot.pair out.new m.now).result }
{
    layer_seal_in(holder, spot, hp, m, out);
    layer_root(&holder.hashes, spot, hp, out, m).value
}
