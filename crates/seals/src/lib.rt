// Seals (FIPS 205, algorithm 19), under a set.
#![tactic(auto)]

ghost use Rattle.std.specs.Prelude.{◌≡◌, length};
ghost use Rattle.message_calls.specs.Framed.{joined};
ghost use Rattle.rules.specs.Seal.{seal_of};
ghost use Rattle.rows.specs.Rows.{ruled_row};
ghost use Rattle.calls.specs.Hashes.{family_for};

use message_calls::Framed;
use rows::sets::Set;
use seal_writes::seal_over;

// The seal of a framed message. A secret key is secret seed, prf seed, public seed and root.
#[tactic(auto, unfolding(rules::specs::Seal::seal_of))]
pub fn seal_in<'a>(set: Set, secret: &'a [u8], framed: &Framed, random: &'a [u8], out: &mut [u8])
    requires { (length secret.now ≡ set.row.secret) × (length out.old ≡ set.row.seal) }
    ensures { out.new ≡ (seal_of (ruled_row set.row) (family_for (ruled_row set.row)) secret.now
        random.now (joined framed.now)).result }
{
    let n = set.row.n;
    let mut indices = [0u32; 35];
    seal_over(
        set,
        &secret[..n],
        &secret[n..2 * n],
        &secret[2 * n..3 * n],
        &secret[3 * n..],
        framed,
        random,
        &mut indices[..set.row.k as usize],
        out,
    );
}
