// The key's own leaves (FIPS 205, algorithm 6).
#![tactic(auto)]

ghost use Rattle.std.specs.Prelude.{◌≡◌, ◌≤◌, take};
ghost use Rattle.rules.specs.Places.{chain_ends, address};
ghost use Rattle.rules.specs.Calls.{Function};
ghost use Rattle.rules.specs.Chains.{leaf as leaf_run};
ghost use Rattle.calls.specs.Hashes.{ruled_hashes};

use addresses::{PlaceKind, address_at};
use calls::{Hashes, Holder};
use chains::{Spot, shown_in};
use rows::sizes::{chain_bytes, chain_count};

// T over the ends of all chains.
pub fn compress(hashes: &Hashes, spot: Spot, ends: &[u8]) -> [u8; 32]
    requires { hashes.now.kit.n ≤ 32 }
    ensures { take hashes.now.kit.n result ≡ (ruled_hashes hashes.now).hash Function.T
        (address (chain_ends spot.layer spot.tree spot.pair)) ends.now }
{
    hashes.t(
        address_at(PlaceKind::ChainEnds, spot.layer, spot.tree, spot.pair, 0, 0),
        ends,
    )
}

// The leaf: every chain ends at position 15. Nothing is allocated, so the ends lie in a part of a local array.
pub fn leaf(holder: &Holder, spot: Spot) -> [u8; 32]
    requires { holder.now.hashes.kit.n ≤ 32 }
    ensures { take holder.now.hashes.kit.n result ≡ (leaf_run (ruled_hashes holder.now.hashes)
        spot.layer spot.tree spot.pair holder.now.secret.now).result }
{
    let len = chain_count(holder.hashes.kit.n);
    let size = chain_bytes(holder.hashes.kit.n);
    let fifteens = [15u32; 67];
    let mut ends = [0u8; 2144];
    let ends = &mut ends[..size];
    shown_in(holder, spot, &fifteens[..len], ends);
    compress(&holder.hashes, spot, ends)
}
