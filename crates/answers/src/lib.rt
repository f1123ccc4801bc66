// The answers, and the tests that come before any work.
#![tactic(auto)]

ghost use Rattle.std.specs.Prelude.{◌≡◌, Ok, Err, IfOk, IfErr, bytes_eq, cond};
ghost use Rattle.std.proofs.Math.Option.{some, none};
ghost use Rattle.rules.specs.Sets.{row_of};
ghost use Rattle.rows.specs.Rows.{ruled_row};
ghost use Rattle.answers.specs.Answers.{number};
ghost use Rattle.answers.specs.declared.Refusal.TheVariants.{UnknownSet};

use rows::find_row;
use rows::sets::Set;

// The paper's refusals 1 to 6.
#[derive(Clone, Copy, Debug, PartialEq, Eq)]
pub enum Refusal {
    UnknownSet,
    InputLength,
    MessageLength,
    SealLength,
    RootDiffers,
    UnknownPart,
}

// The paper's answers 0 to 6: done, or a refusal.
pub type Answer = Result<(), Refusal>;

// The paper's number of an answer. A function, since a `Result` may have no `From` here.
pub fn number_of(answer: Answer) -> u32
    ensures { result ≡ number answer }
{
    match answer {
        Ok(()) => 0,
        Err(Refusal::UnknownSet) => 1,
        Err(Refusal::InputLength) => 2,
        Err(Refusal::MessageLength) => 3,
        Err(Refusal::SealLength) => 4,
        Err(Refusal::RootDiffers) => 5,
        Err(Refusal::UnknownPart) => 6,
    }
}

// The longest message.
pub const MESSAGE_LIMIT: usize = 65536;

// A line: its refusal where its test fails.
pub fn demand(passed: bool, refusal: Refusal) -> Answer
    ensures { result ≡ cond passed (Ok tt) (Err refusal) }
{
    if passed { Ok(()) } else { Err(refusal) }
}

// The first line: the set of a number.
pub fn known_set(number: u32) -> Result<Set, Refusal>
    ensures known { IfOk result (λ set. row_of number ≡ some (ruled_row set.row)) }
    ensures unknown { IfErr result (λ refusal. (refusal ≡ UnknownSet) × (row_of number ≡ none)) }
{
    let row = find_row(number).ok_or(Refusal::UnknownSet)?;
    Ok(Set { row })
}

// Whether two strings are the same: byte by byte, up to the first difference.
pub fn same(a: &[u8], b: &[u8]) -> bool
    ensures { result ≡ bytes_eq a.now b.now }
{
    a.len() == b.len() && a.iter().zip(b).all(|(x, y)| x == y)
}
