// Chains, and what a seal shows of them (FIPS 205, algorithms 5 and 7).
#![tactic(auto)]

ghost use Rattle.std.specs.Prelude.{◌≡◌, ◌+◌, ◌*◌, ◌<◌, ◌^◌, length};
ghost use Rattle.lists.specs.Below.{Below};
ghost use Rattle.rules.specs.Places.{chain_step};
ghost use Rattle.rules.specs.Calls.{Kind, Function};
ghost use Rattle.rules.specs.Chains.{chain, own_chain, shown};
ghost use Rattle.counts.specs.Counts.{count};
ghost use Rattle.calls.specs.Hashes.{ruled_hashes};

use addresses::{PlaceKind, address_at};
use calls::{Hashes, Holder};

// Which leaf: its layer, its tree there and its number in the tree, the key pair.
#[derive(Clone, Copy)]
pub struct Spot {
    pub layer: u32,
    pub tree: u64,
    pub pair: u32,
}

// Some steps of chain c from a position on, in place. Returns the F calls.
pub fn chain_in(hashes: &Hashes, spot: Spot, c: u32, start: u32, steps: u32, io: &mut [u8]) -> u32
    requires { (length io.old ≡ hashes.now.kit.n) × (start + steps < 16) }
    ensures io_after { io.new ≡ (chain (ruled_hashes hashes.now)
        (chain_step spot.layer spot.tree spot.pair c) io.old start steps).result }
    ensures f_calls { result ≡ count (Kind.of Function.F) (chain (ruled_hashes hashes.now)
        (chain_step spot.layer spot.tree spot.pair c) io.old start steps).calls }
{
    let Spot { layer, tree, pair } = spot;
    for k in 0..steps {
        hashes.f_in(
            address_at(PlaceKind::ChainStep, layer, tree, pair, c, start + k),
            io,
        );
    }
    steps
}

// The key's own value at a position of chain c.
fn own_chain(holder: &Holder, spot: Spot, c: u32, steps: u32, out: &mut [u8])
    requires { (length out.old ≡ holder.now.hashes.kit.n) × (steps < 16) }
    ensures { out.new ≡ own_chain (ruled_hashes holder.now.hashes)
        spot.layer spot.tree spot.pair holder.now.secret.now c steps }
{
    let Spot { layer, tree, pair } = spot;
    holder.secret_in(
        address_at(PlaceKind::ChainSecret, layer, tree, pair, c, 0),
        out,
    );
    chain_in(&holder.hashes, spot, c, 0, steps, out);
}

// What a seal shows for the digits, chain after chain. A place is worked out, since `chunks_exact_mut` takes no n of 0.
pub fn shown_in(holder: &Holder, spot: Spot, ds: &[u32], out: &mut [u8])
    requires { (length out.old ≡ length ds.now * holder.now.hashes.kit.n) × (length ds.now < 2 ^ 32) × Below 16 ds.now }
    ensures { out.new ≡ (shown (ruled_hashes holder.now.hashes)
        spot.layer spot.tree spot.pair holder.now.secret.now 0 ds.now).result }
{
    let n = holder.hashes.kit.n;
    for (i, &d) in ds.iter().enumerate() {
        let at = i * n;
        own_chain(holder, spot, i as u32, d, &mut out[at..at + n]);
    }
}
