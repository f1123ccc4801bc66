// Key making.
#![tactic(auto)]

ghost use Rattle.std.specs.Prelude.{◌≡◌};
ghost use Rattle.std.proofs.Math.Option.{some};
ghost use Rattle.rules.specs.Sets.{row_of};
ghost use Rattle.rows.specs.Rows.{ruled_row};
ghost use Rattle.answers.specs.Answers.{number};
ghost use Rattle.answers.specs.Lines.{first};
ghost use Rattle.making.specs.Keys.{keys_lines, KeysMade};

use answers::{Answer, Refusal, demand, known_set};
use keys::keys_in;
use rows::Row;

// The lines under a known set, in the paper's order.
#[tactic(auto, unfolding(answers::specs::Lines::first))]
fn keys_answer(row: Row, sk: usize, prf: usize, pk: usize, public: usize, secret: usize) -> Answer
    ensures { number result ≡ first (keys_lines (some (ruled_row row)) sk prf pk public secret) }
{
    let n = row.n;
    demand(sk == n, Refusal::InputLength)?;
    demand(prf == n, Refusal::InputLength)?;
    demand(pk == n, Refusal::InputLength)?;
    demand(public == row.public, Refusal::SealLength)?;
    demand(secret == row.secret, Refusal::SealLength)
}

// Makes a key pair from three seeds (FIPS 205, algorithm 18).
pub fn make_keys(
    set: u32,
    secret_seed: &[u8],
    prf_seed: &[u8],
    public_seed: &[u8],
    public: &mut [u8],
    secret: &mut [u8],
) -> Answer
    ensures { KeysMade (row_of set) secret_seed.now prf_seed.now
        public_seed.now public.old secret.old result public.new
        secret.new }
{
    let known = known_set(set)?;
    keys_answer(
        known.row,
        secret_seed.len(),
        prf_seed.len(),
        public_seed.len(),
        public.len(),
        secret.len(),
    )?;
    keys_in(known, secret_seed, prf_seed, public_seed, public, secret);
    Ok(())
}
