// Sealing.
#![tactic(auto)]

ghost use Rattle.std.specs.Prelude.{◌≡◌};
ghost use Rattle.std.proofs.Math.Option.{some};
ghost use Rattle.rules.specs.Sets.{row_of};
ghost use Rattle.rows.specs.Rows.{ruled_row};
ghost use Rattle.answers.specs.Answers.{number};
ghost use Rattle.answers.specs.Lines.{first};
ghost use Rattle.sealing.specs.Seals.{seal_lines, Sealed};

use answers::{Answer, MESSAGE_LIMIT, Refusal, demand, known_set};
use message_calls::Framed;
use rows::Row;
use seals::seal_in;

// The lines under a known set, in the paper's order.
#[tactic(auto, unfolding(answers::specs::Lines::first))]
fn seal_answer(row: Row, secret: usize, message: usize, random: usize, out: usize) -> Answer
    ensures { number result ≡ first (seal_lines (some (ruled_row row)) secret message random out) }
{
    demand(secret == row.secret, Refusal::InputLength)?;
    demand(random == 0 || random == row.n, Refusal::InputLength)?;
    demand(message <= MESSAGE_LIMIT, Refusal::MessageLength)?;
    demand(out == row.seal, Refusal::SealLength)
}

// Seals a message (FIPS 205, algorithm 22 with an empty context). Randomizer input of 0 bytes is the deterministic
// variant.
pub fn seal<'a>(
    set: u32,
    secret: &'a [u8],
    message: &[u8],
    random: &'a [u8],
    out: &mut [u8],
) -> Answer
    ensures { Sealed (row_of set) secret.now message.now random.now
        out.old result out.new }
{
    let known = known_set(set)?;
    seal_answer(
        known.row,
        secret.len(),
        message.len(),
        random.len(),
        out.len(),
    )?;
    let head = [0u8; 2];
    let framed = Framed {
        head: &head,
        context: b"",
        message,
    };
    seal_in(known, secret, &framed, random, out);
    Ok(())
}
