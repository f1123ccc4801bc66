// Checking.
#![tactic(auto)]

ghost use Rattle.std.specs.Prelude.{◌≡◌};
ghost use Rattle.std.proofs.Math.Option.{some};
ghost use Rattle.rules.specs.Sets.{row_of};
ghost use Rattle.rows.specs.Rows.{ruled_row};
ghost use Rattle.answers.specs.Answers.{number};
ghost use Rattle.answers.specs.Lines.{first};
ghost use Rattle.checking.specs.Checks.{length_lines, Checked, verdict};

use answers::{Answer, MESSAGE_LIMIT, Refusal, demand, known_set, same};
use checks::checked_root;
use message_calls::Framed;
use rows::Row;

// An answer, and the F calls that were made for it. They stand beside the answer and not in its `Ok`, since they are
// told with the refusal 5 too.
#[derive(Clone, Copy, Debug, PartialEq, Eq)]
pub struct Verdict {
    pub answer: Answer,
    pub calls: u32,
}

// The lines before the walk, under a known set, in the paper's order.
#[tactic(auto, unfolding(answers::specs::Lines::first))]
fn check_answer(row: Row, public: usize, message: usize, seal: usize) -> Answer
    ensures { number result ≡ first (length_lines (some (ruled_row row)) public message seal) }
{
    demand(public == row.public, Refusal::InputLength)?;
    demand(message <= MESSAGE_LIMIT, Refusal::MessageLength)?;
    demand(seal == row.seal, Refusal::SealLength)
}

// The verdict of the walk, or what is refused before it.
fn walk(set: u32, public: &[u8], message: &[u8], seal: &[u8]) -> Result<Verdict, Refusal>
    ensures { Checked (row_of set) public.now message.now seal.now (verdict result) }
{
    let known = known_set(set)?;
    check_answer(known.row, public.len(), message.len(), seal.len())?;
    let n = known.row.n;
    let head = [0u8; 2];
    let framed = Framed {
        head: &head,
        context: b"",
        message,
    };
    let walked = checked_root(known, public, &framed, seal);
    let calls = walked.calls;
    let root = &walked.value[..n];
    let own = &public[n..];
    let alike = same(root, own);
    let answer = demand(alike, Refusal::RootDiffers);
    Ok(Verdict { answer, calls })
}

// Checks a seal of a message (FIPS 205, algorithm 24 with an empty context), and counts the F calls.
pub fn check(set: u32, public: &[u8], message: &[u8], seal: &[u8]) -> Verdict
    ensures { Checked (row_of set) public.now message.now seal.now result }
{
    match walk(set, public, message, seal) {
        Ok(verdict) => verdict,
        Err(refusal) => Verdict {
            answer: Err(refusal),
            calls: 0,
        },
    }
}
