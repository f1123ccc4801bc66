// A seal by the pieces of a secret key (FIPS 205, algorithm 19), under a set.
#![tactic(auto)]

ghost use Rattle.std.specs.Prelude.{◌≡◌, length};
ghost use Rattle.message_calls.specs.Framed.{joined};
ghost use Rattle.rules.specs.Seal.{mixed_in, randomizer_of, seal_with};
ghost use Rattle.rows.specs.Rows.{ruled_row};
ghost use Rattle.calls.specs.Hashes.{family_for};

use message_calls::Framed;
use randomizers::randomized_aim;
use rows::sets::Set;
use writes::written_in;

// The seal of a framed message by the four strings of a secret key, with room lent for the forest's digits: the
// randomizer and where the message points with it (lines 2 to 10), and what is written for that (lines 11 to 17).
#[tactic(auto, unfolding(rules::specs::Seal::seal_with))]
pub fn seal_over<'a>(
    set: Set,
    sk: &[u8],
    prf: &[u8],
    seed: &'a [u8],
    root: &[u8],
    framed: &Framed,
    random: &'a [u8],
    indices: &mut [u32],
    out: &mut [u8],
)
    requires { (length indices.old ≡ set.row.k) × (length out.old ≡ set.row.seal) }
    ensures { out.new ≡ (seal_with (ruled_row set.row) (family_for (ruled_row set.row))
        (randomizer_of (ruled_row set.row) (family_for (ruled_row set.row)) prf.now (mixed_in random.now seed.now)
        (joined framed.now)).result sk.now seed.now root.now (joined framed.now)).result }
{
    let (randomizer, rest) = out.split_at_mut(set.row.n);
    let pointed = randomized_aim(set, prf, seed, root, framed, random, indices, randomizer);
    written_in(set, seed, sk, pointed, indices, rest);
}
