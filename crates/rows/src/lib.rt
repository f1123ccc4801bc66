// The sets (FIPS 205, table 2). A set's numbers stand in this table and nowhere else in the code.
#![tactic(auto)]

pub mod sets;
pub mod sizes;

ghost use Rattle.std.specs.Prelude.{◌≡◌};
ghost use Rattle.rules.specs.Sets.{row_of};
ghost use Rattle.rows.specs.Rows.{ruled};

#[derive(Clone, Copy, Debug, PartialEq, Eq)]
pub struct Row {
    pub number: u32,
    pub n: usize,
    pub h: u32,
    pub d: u32,
    pub hp: u32,
    pub a: u32,
    pub k: u32,
    pub m: usize,
    pub public: usize,
    pub secret: usize,
    pub seal: usize,
}

const ROWS: [Row; 2] = [
    Row {
        number: 1,
        n: 16,
        h: 63,
        d: 7,
        hp: 9,
        a: 12,
        k: 14,
        m: 30,
        public: 32,
        secret: 64,
        seal: 7856,
    },
    Row {
        number: 2,
        n: 16,
        h: 66,
        d: 22,
        hp: 3,
        a: 6,
        k: 33,
        m: 34,
        public: 32,
        secret: 64,
        seal: 17088,
    },
];

// The row of a set number, by a match with a default that refuses.
#[tactic(auto, unfolding(rules::specs::Sets::row_of, rules::specs::Sets::find, rules::specs::Sets::rows))]
pub fn find_row(set: u32) -> Option<Row>
    ensures { ruled result ≡ row_of set }
{
    match set {
        1 => Some(ROWS[0]),
        2 => Some(ROWS[1]),
        _ => None,
    }
}
