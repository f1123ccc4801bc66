// KECCAK-f[1600] (FIPS 202, 3.2 to 3.4): χ and ι, plainly, and 24 rounds of the step mappings.
#![tactic(auto)]

ghost use Rattle.std.specs.Prelude.{◌≡◌};
ghost use Rattle.keccak.specs.Keccak.{χ, round as round_of, keccak_f};

use keccak::{pi, rho, theta};

// The round constants, which ι adds.
const CONSTANTS: [u64; 24] = [
    0x0000000000000001,
    0x0000000000008082,
    0x800000000000808a,
    0x8000000080008000,
    0x000000000000808b,
    0x0000000080000001,
    0x8000000080008081,
    0x8000000000008009,
    0x000000000000008a,
    0x0000000000000088,
    0x0000000080008009,
    0x000000008000000a,
    0x000000008000808b,
    0x800000000000008b,
    0x8000000000008089,
    0x8000000000008003,
    0x8000000000008002,
    0x8000000000000080,
    0x000000000000800a,
    0x800000008000000a,
    0x8000000080008081,
    0x8000000000008080,
    0x0000000080000001,
    0x8000000080008008,
];

// Row by row, since a function of the place takes remainders by 5 that cost more than all else; i is the place of the
// row's first lane.
fn chi(a: &[u64; 25]) -> [u64; 25]
    ensures { result ≡ χ a.now }
{
    let mut b = [0u64; 25];
    for y in 0..5 {
        let i = 5 * y;
        let c0 = a[i];
        let c1 = a[i + 1];
        let c2 = a[i + 2];
        let c3 = a[i + 3];
        let c4 = a[i + 4];
        b[i] = c0 ^ (!c1 & c2);
        b[i + 1] = c1 ^ (!c2 & c3);
        b[i + 2] = c2 ^ (!c3 & c4);
        b[i + 3] = c3 ^ (!c4 & c0);
        b[i + 4] = c4 ^ (!c0 & c1);
    }
    b
}

// A round with the constant c, which ι adds.
fn round(s: &mut [u64; 25], c: u64)
    ensures { s.new ≡ round_of c s.old }
{
    let a = theta(s);
    let b = rho(&a);
    let d = pi(&b);
    *s = chi(&d);
    s[0] ^= c;
}

pub fn permute(s: &mut [u64; 25])
    ensures { s.new ≡ keccak_f s.old }
{
    for c in CONSTANTS {
        round(s, c);
    }
}
