// The leaf that a seal leads to (FIPS 205, algorithm 8), with the F calls counted.
#![tactic(auto)]

ghost use Rattle.std.specs.Prelude.{◌≡◌, ◌*◌, ◌<◌, ◌^◌, length};
ghost use Rattle.lists.specs.Below.{Below};
ghost use Rattle.rules.specs.Calls.{Kind, Function};
ghost use Rattle.rules.specs.Chains.{walk, leaf_from};
ghost use Rattle.counts.specs.Counts.{count};
ghost use Rattle.calls.specs.Hashes.{ruled_hashes};
ghost use Rattle.climbs.specs.Leads.{Leads};
ghost use Rattle.leaf_walks.specs.From.{From};

use calls::Hashes;
use chains::{Spot, chain_in};
use climbs::Walked;
use digits::chain_digits;
use leaves::compress;
use rows::sizes::{chain_bytes, chain_count};

// From the shown values on to the ends, in place. Returns the F calls.
fn walk_in(hashes: &Hashes, spot: Spot, ds: &[u32], io: &mut [u8]) -> u32
    requires { (length io.old ≡ length ds.now * hashes.now.kit.n) × (length ds.now < 2 ^ 16) × Below 16 ds.now }
    ensures io_after { io.new ≡ (walk (ruled_hashes hashes.now)
        spot.layer spot.tree spot.pair 0 ds.now io.old).result }
    ensures f_calls { result ≡ count (Kind.of Function.F) (walk (ruled_hashes hashes.now)
        spot.layer spot.tree spot.pair 0 ds.now io.old).calls }
{
    let n = hashes.kit.n;
    let mut calls: u32 = 0;
    for (i, &d) in ds.iter().enumerate() {
        let at = i * n;
        calls += chain_in(hashes, spot, i as u32, d, 15 - d, &mut io[at..at + n]);
    }
    calls
}

// The leaf that the shown values `sig` lead to for the value m.
pub fn leaf_from(hashes: &Hashes, spot: Spot, sig: &[u8], m: &[u8]) -> Walked
    requires { From hashes.now.kit (length sig.now) (length m.now) }
    ensures { Leads hashes.now.kit.n (leaf_from (ruled_hashes hashes.now)
        spot.layer spot.tree spot.pair sig.now m.now) result }
{
    let len = chain_count(hashes.kit.n);
    let size = chain_bytes(hashes.kit.n);
    let mut ds = [0u32; 67];
    let mut ends = [0u8; 2144];
    let ds = &mut ds[..len];
    let ends = &mut ends[..size];
    chain_digits(m, ds);
    ends.copy_from_slice(sig);
    let calls = walk_in(hashes, spot, ds, ends);
    let value = compress(hashes, spot, ends);
    Walked { value, calls }
}
