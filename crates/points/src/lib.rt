// Where a message digest points (FIPS 205, algorithms 19, lines 6 to 10, and 20, lines 9 to 13).
#![tactic(auto)]

ghost use Rattle.std.specs.Prelude.{◌≡◌, ◌≤◌, length};
ghost use Rattle.message_calls.specs.Framed.{joined};
ghost use Rattle.rules.specs.Digest.{last_bits, pointed};
ghost use Rattle.rules.specs.Seal.{digest_of};
ghost use Rattle.rows.specs.Rows.{ruled_row};
ghost use Rattle.points.specs.At.{at};
ghost use Rattle.calls.specs.Hashes.{family_for};

use calls::{Hashes, kit_of};
use climbs::groves::Pointed;
use digits::{digits, to_int};
use message_calls::{Framed, digest_in};
use rows::sets::Set;

// The last bits of at most eight bytes, as a number.
#[tactic(auto, using(crate::proofs::PointLaws::cut))]
fn last_bits(bits: u32, x: &[u8]) -> u64
    requires { length x.now ≤ 8 }
    ensures { result ≡ last_bits bits x.now }
{
    let v = to_int(x);
    if bits < 64 { v % (1u64 << bits) } else { v }
}

// The tree and the leaf that a digest points to; the forest's digits are written to the list lent.
#[tactic(auto, using(crate::proofs::PointLaws::height_le, crate::proofs::PointLaws::bits_fit))]
fn point(set: Set, digest: &[u8], indices: &mut [u32]) -> Pointed
    requires { (length digest.now ≡ set.row.m) × (length indices.old ≡ set.row.k) }
    ensures { at result indices.new ≡ pointed (ruled_row set.row) digest.now }
{
    let bits = set.row.h - set.row.hp;
    let (for_forest, rest) = digest.split_at((set.row.k * set.row.a).div_ceil(8) as usize);
    let (for_tree, for_leaf) = rest.split_at(bits.div_ceil(8) as usize);
    digits(for_forest, set.row.a, indices);
    let tree = last_bits(bits, for_tree);
    let leaf = last_bits(set.row.hp, for_leaf) as u32;
    Pointed { tree, leaf }
}

// Where a framed message points with its randomizer under a key.
pub fn aim(
    set: Set,
    r: &[u8],
    seed: &[u8],
    root: &[u8],
    framed: &Framed,
    indices: &mut [u32],
) -> Pointed
    requires { length indices.old ≡ set.row.k }
    ensures { at result indices.new ≡ pointed (ruled_row set.row) (digest_of (ruled_row set.row)
        (family_for (ruled_row set.row)) r.now seed.now root.now (joined framed.now)).result }
{
    let mut digest = [0; 64];
    let digest = &mut digest[..set.row.m];
    let kit = kit_of(set.row);
    let hashes = Hashes { kit, seed };
    digest_in(&hashes, r, root, framed, digest);
    point(set, digest, indices)
}
