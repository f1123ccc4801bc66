// Chain digits of a value.
#![tactic(auto)]

ghost use Rattle.std.specs.Prelude.{◌≡◌};
ghost use Rattle.std.proofs.Math.Option.{some};
ghost use Rattle.rules.specs.Sets.{row_of};
ghost use Rattle.rows.specs.Rows.{ruled_row};
ghost use Rattle.answers.specs.Answers.{number};
ghost use Rattle.answers.specs.Lines.{first};
ghost use Rattle.digit_reading.specs.Digits.{digits_lines, DigitsRead};

use answers::{Answer, Refusal, demand, known_set};
use rows::sets::Set;
use rows::sizes::chain_count;

// The lines under a known set, in the paper's order.
#[tactic(auto, unfolding(answers::specs::Lines::first))]
fn digits_answer(set: Set, value: usize, digits: usize) -> Answer
    ensures { number result ≡ first (digits_lines (some (ruled_row set.row)) value digits) }
{
    let n = set.row.n;
    let many = chain_count(n);
    demand(value == n, Refusal::InputLength)?;
    demand(digits == many, Refusal::SealLength)
}

// The chain digits of a value with their checksum (FIPS 205, algorithm 7, lines 1 to 7), written to the list lent.
pub fn chain_digits(set: u32, value: &[u8], digits: &mut [u32]) -> Answer
    ensures { DigitsRead (row_of set) value.now digits.old result digits.new }
{
    let known = known_set(set)?;
    digits_answer(known, value.len(), digits.len())?;
    digits::chain_digits(value, digits);
    Ok(())
}
