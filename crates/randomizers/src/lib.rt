// The randomizer of a seal, and where the message points with it (FIPS 205, algorithm 19, lines 2 to 10).
#![tactic(auto)]

ghost use Rattle.std.specs.Prelude.{◌≡◌, length};
ghost use Rattle.message_calls.specs.Framed.{joined};
ghost use Rattle.randomizers.specs.Mixed.{chosen};
ghost use Rattle.rules.specs.Digest.{pointed};
ghost use Rattle.rules.specs.Seal.{mixed_in, randomizer_of, digest_of};
ghost use Rattle.rows.specs.Rows.{ruled_row};
ghost use Rattle.calls.specs.Hashes.{family_for};
ghost use Rattle.points.specs.At.{at};

use calls::kit_of;
use climbs::groves::Pointed;
use message_calls::{Framed, randomizer_in};
use points::aim;
use rows::sets::Set;

// The mixed-in bytes (line 2): the randomizer input, or where it is empty the secret key's public seed. They are the
// lent memory itself.
#[tactic(auto, using(crate::proofs::RandomizerLaws::mixed))]
fn mixed_in<'a>(random: &'a [u8], seed: &'a [u8]) -> &'a [u8]
    ensures bytes { result.now ≡ mixed_in random.now seed.now }
    ensures place { result.ref_ptr ≡ chosen (length random.now) random.entry.ref_ptr seed.entry.ref_ptr }
{
    if random.is_empty() { seed } else { random }
}

// The randomizer of a framed message, from the prf seed, the randomizer input and the public seed (lines 2 and 3).
fn randomizer_of_in<'a>(
    set: Set,
    prf: &[u8],
    random: &'a [u8],
    seed: &'a [u8],
    framed: &Framed,
    out: &mut [u8],
)
    requires { length out.old ≡ set.row.n }
    ensures { out.new ≡ (randomizer_of (ruled_row set.row) (family_for (ruled_row set.row)) prf.now
        (mixed_in random.now seed.now) (joined framed.now)).result }
{
    let kit = kit_of(set.row);
    let mixed = mixed_in(random, seed);
    randomizer_in(kit, prf, mixed, framed, out);
}

// The randomizer, and where the framed message points with it (lines 2 to 10).
pub fn randomized_aim<'a>(
    set: Set,
    prf: &[u8],
    seed: &'a [u8],
    root: &[u8],
    framed: &Framed,
    random: &'a [u8],
    indices: &mut [u32],
    out: &mut [u8],
) -> Pointed
    requires { (length indices.old ≡ set.row.k) × (length out.old ≡ set.row.n) }
    ensures out_after { out.new ≡ (randomizer_of (ruled_row set.row) (family_for (ruled_row set.row)) prf.now
        (mixed_in random.now seed.now) (joined framed.now)).result }
    ensures aimed { at result indices.new ≡ pointed (ruled_row set.row) (digest_of (ruled_row set.row)
        (family_for (ruled_row set.row)) out.new seed.now root.now (joined framed.now)).result }
{
    randomizer_of_in(set, prf, random, seed, framed, out);
    aim(set, out, seed, root, framed, indices)
}
