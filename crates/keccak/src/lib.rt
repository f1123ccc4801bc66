// θ, ρ and π, the step mappings of KECCAK-f[1600] that mix columns, rotate lanes and move them (FIPS 202, 3.2.1 to
// 3.2.3), plainly: a function of the place for each of the 25 lanes, or a list of them.
#![tactic(auto)]

ghost use Rattle.std.specs.Prelude.{◌≡◌, ◌<◌};
ghost use Rattle.keccak.specs.Keccak.{each, C, D, rotated, θ, ρ, π};

use std::array;

// The offsets of ρ: that of the lane at column x and row y is at 5y + x.
const OFFSETS: [u32; 25] = [
    0, 1, 62, 28, 27, 36, 44, 6, 55, 20, 3, 10, 43, 25, 39, 41, 45, 15, 21, 8, 18, 2, 61, 56, 14,
];

// A lane rotated left by n, by a pair of shifts as a rule of the project has it; at n = 0 both are by 0.
fn rotate(a: u64, n: u32) -> u64
    requires { n < 64 }
    ensures { result ≡ rotated n a }
{
    (a << n) | (a >> ((64 - n) % 64))
}

// The parity of column x.
fn parity(a: &[u64; 25], x: usize) -> u64
    requires { x < 5 }
    ensures { result ≡ C a.now x }
{
    a[x] ^ a[5 + x] ^ a[10 + x] ^ a[15 + x] ^ a[20 + x]
}

// What θ adds to each column.
fn effects(a: &[u64; 25]) -> [u64; 5]
    ensures { result ≡ each (D a.now) 0 5 }
{
    let c0 = parity(a, 0);
    let c1 = parity(a, 1);
    let c2 = parity(a, 2);
    let c3 = parity(a, 3);
    let c4 = parity(a, 4);
    [
        c4 ^ rotate(c1, 1),
        c0 ^ rotate(c2, 1),
        c1 ^ rotate(c3, 1),
        c2 ^ rotate(c4, 1),
        c3 ^ rotate(c0, 1),
    ]
}

pub fn theta(a: &[u64; 25]) -> [u64; 25]
    ensures { result ≡ θ a.now }
{
    let d = effects(a);
    array::from_fn(|i| a[i] ^ d[i % 5])
}

pub fn rho(a: &[u64; 25]) -> [u64; 25]
    ensures { result ≡ ρ a.now }
{
    array::from_fn(|i| rotate(a[i], OFFSETS[i]))
}

// Lane (x, y) comes from (x + 3y, x).
pub fn pi(a: &[u64; 25]) -> [u64; 25]
    ensures { result ≡ π a.now }
{
    [
        a[0], a[6], a[12], a[18], a[24], a[3], a[9], a[10], a[16], a[22], a[1], a[7], a[13], a[19],
        a[20], a[4], a[5], a[11], a[17], a[23], a[2], a[8], a[14], a[15], a[21],
    ]
}
