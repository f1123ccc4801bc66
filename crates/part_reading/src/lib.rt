// Part reading: a part is handed out as it lies in the seal.
#![tactic(auto)]

ghost use Rattle.std.specs.Prelude.{◌≡◌, ◌+◌, ◌≤◌, Ok, IfOk};
ghost use Rattle.std.specs.Result.{result_and};
ghost use Rattle.std.proofs.Math.Option.{some};
ghost use Rattle.rules.specs.Sets.{row_of};
ghost use Rattle.rules.specs.Seal.{part_start, part_length};
ghost use Rattle.rows.specs.Rows.{ruled_row};
ghost use Rattle.answers.specs.Answers.{number as number_of};
ghost use Rattle.answers.specs.Lines.{first};
ghost use Rattle.part_reading.specs.Parts.{byte_at, part_lines, part_answer, part_given, start_given, length_given};
ghost use Rattle.part_reading.specs.Parts.{kind_number, Located};

use answers::{Answer, Refusal, demand, known_set};
use rows::sets::Set;
use rows::sizes::{forest_bytes, layer_bytes};

// Where a part lies in its seal.
#[derive(Clone, Copy, Debug, PartialEq, Eq)]
pub struct Extent {
    pub start: usize,
    pub length: usize,
}

// What a part is: numbers 0, 1, and 2 and more. Callers give the number, in C too.
#[derive(Clone, Copy)]
enum PartKind {
    Randomizer,
    Forest,
    Layer(u32),
}

// The lines under a known set, in the paper's order, and then the kind of the part.
#[tactic(auto, unfolding(answers::specs::Lines::first))]
fn part_kind(set: Set, seal: usize, number: u32) -> Result<PartKind, Refusal>
    ensures answered { number_of (result_and result (Ok tt))
        ≡ first (part_lines (some (ruled_row set.row)) seal number) }
    ensures kind { IfOk result (λ kind. kind_number kind ≡ number) }
{
    demand(seal == set.row.seal, Refusal::SealLength)?;
    demand(number <= set.row.d + 1, Refusal::UnknownPart)?;
    Ok(match number {
        0 => PartKind::Randomizer,
        1 => PartKind::Forest,
        _ => PartKind::Layer(number - 2),
    })
}

// Where the part of a kind lies.
#[tactic(auto, unfolding(rules::specs::Seal::part_start, rules::specs::Seal::part_length))]
fn extent_of(set: Set, kind: PartKind) -> Extent
    requires { kind_number kind ≤ set.row.d + 1 }
    ensures start_value { result.start ≡ part_start (ruled_row set.row) (kind_number kind) }
    ensures length_value { result.length ≡ part_length (ruled_row set.row) (kind_number kind) }
{
    let n = set.row.n;
    let forest = forest_bytes(n, set.row.a, set.row.k);
    let layer = layer_bytes(n, set.row.hp);
    match kind {
        PartKind::Randomizer => Extent {
            start: 0,
            length: n,
        },
        PartKind::Forest => Extent {
            start: n,
            length: forest,
        },
        PartKind::Layer(j) => Extent {
            start: n + forest + (j as usize) * layer,
            length: layer,
        },
    }
}

// Where the part of a number lies, or the refusal: what part reading hands out are views of it.
fn locate(set: u32, seal: &[u8], number: u32) -> Result<Extent, Refusal>
    ensures { Located (row_of set) seal.now number result }
{
    let known = known_set(set)?;
    let kind = part_kind(known, seal.len(), number)?;
    Ok(extent_of(known, kind))
}

// The answer of part reading.
pub fn part_answer(set: u32, seal: &[u8], number: u32) -> Answer
    ensures { number_of result ≡ part_answer (row_of set) seal.now number }
{
    locate(set, seal, number)?;
    Ok(())
}

// Where the part of a seal lies; both numbers are 0 with every refusal, so it has no error.
pub fn part_extent(set: u32, seal: &[u8], number: u32) -> Extent
    ensures start_value { result.start ≡ start_given (row_of set) seal.now number }
    ensures length_value { result.length ≡ length_given (row_of set) seal.now number }
{
    locate(set, seal, number).unwrap_or(Extent {
        start: 0,
        length: 0,
    })
}

// The part of a seal, as it lies there: the lent memory itself. Empty with every refusal, so it has no error.
pub fn part(set: u32, seal: &[u8], number: u32) -> &[u8]
    ensures bytes { result.now ≡ part_given (row_of set) seal.now number }
    ensures place { result.ref_ptr ≡ byte_at seal.entry.ref_ptr (start_given (row_of set) seal.now number) }
{
    let extent = part_extent(set, seal, number);
    let end = extent.start + extent.length;
    &seal[extent.start..end]
}
