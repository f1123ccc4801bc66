// The climb from a leaf to a root along its siblings (FIPS 205, algorithms 11 and 17), and what a walk gives.
#![tactic(auto)]

pub mod groves;

ghost use Rattle.std.specs.Prelude.{◌≡◌, ◌+◌, ◌*◌, ◌/◌, ◌%◌, ◌^◌, ◌≤◌, ◌<◌, length, take};
ghost use Rattle.rules.specs.Places.{address};
ghost use Rattle.rules.specs.Calls.{Function};
ghost use Rattle.rules.specs.Trees.{join, climb};
ghost use Rattle.calls.specs.Hashes.{ruled_hashes};
ghost use Rattle.climbs.specs.Groves.{place_of};

use crate::groves::{Grove, node_address};
use calls::Hashes;

// A value that a seal leads to, and the F calls on the way. Nothing is allocated, so a value has room for 32 bytes, of
// which the first n of the set count.
#[derive(Clone, Copy)]
pub struct Walked {
    pub value: [u8; 32],
    pub calls: u32,
}

// One height up from the value v at height z and index i, with its sibling.
fn up(hashes: &Hashes, grove: Grove, z: u32, i: u32, v: [u8; 32], sibling: &[u8]) -> [u8; 32]
    requires { (hashes.now.kit.n ≤ 32) × (z + 1 < 2 ^ 32) }
    ensures { take hashes.now.kit.n result
        ≡ (ruled_hashes hashes.now).hash Function.H (address (place_of grove (z + 1) (i / 2)))
        (join (i % 2) (take hashes.now.kit.n v) sibling.now) }
{
    let own = &v[..hashes.kit.n];
    let adrs = node_address(grove, z + 1, i / 2);
    if i % 2 == 0 {
        hashes.h(adrs, own, sibling)
    } else {
        hashes.h(adrs, sibling, own)
    }
}

// The root that a leaf's value leads to, count heights up along the siblings in auth.
pub fn climb(
    hashes: &Hashes,
    grove: Grove,
    count: u32,
    i: u32,
    leaf: [u8; 32],
    auth: &[u8],
) -> [u8; 32]
    requires { (hashes.now.kit.n ≤ 32) × (length auth.now ≡ count * hashes.now.kit.n) }
    ensures { take hashes.now.kit.n result
        ≡ (climb (ruled_hashes hashes.now) (place_of grove) count 0 i (take hashes.now.kit.n leaf) auth.now).result }
{
    let n = hashes.kit.n;
    let mut v = leaf;
    let mut j = i;
    for z in 0..count {
        let at = z as usize * n;
        // Named first, since the check does not cover this call's array laid into a variable that lives on.
        let u = up(hashes, grove, z, j, v, &auth[at..at + n]);
        v = u;
        j /= 2;
    }
    v
}
