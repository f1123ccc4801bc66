// Byte strings as numbers, and their digits, written into lent slices (FIPS 205, sections 4.4 and 5.2).
#![tactic(auto)]

ghost use Rattle.std.specs.Prelude.{◌≡◌, ◌+◌, ◌-◌, ◌*◌, ◌/◌, ◌%◌, ◌^◌, ◌<◌, ◌≤◌, length};
ghost use Rattle.rules.specs.Digits.{to_int, to_byte, base2b};
ghost use Rattle.rules.specs.Chains.{chains, steps, chain_digits};

// The big-endian number of at most eight bytes (FIPS 205, algorithm 2).
#[tactic(auto, using(crate::proofs::Laws::number_fits, crate::proofs::Laws::number_turn))]
pub fn to_int(x: &[u8]) -> u64
    requires { length x.now ≤ 8 }
    ensures { result ≡ to_int x.now }
{
    let mut total = 0;
    for &b in x {
        total = total * 256 + u64::from(b);
    }
    total
}

// The `width` bits of `x` that follow its first `skip` bits.
#[tactic(auto, using(crate::proofs::Laws::digit_modulus, crate::proofs::Laws::digit_fits))]
fn digit(x: &[u8], skip: u32, width: u32) -> u32
    requires { (skip < 8) × (width ≤ 16) × (skip + width ≤ 8 * length x.now) }
    ensures { result ≡ to_int x.now / 2 ^ (8 * length x.now - (skip + width)) % 2 ^ width }
{
    let end = skip + width;
    // Written out, since the compiler sees of this form alone that a chain digit lies within two bytes.
    let bytes = (end + 7) / 8;
    let front = to_int(&x[..bytes as usize]) >> (bytes * 8 - end);
    (front % (1 << width)) as u32
}

// The digits of width `width` of `x`, most significant first: as many as `out` has room for (FIPS 205, algorithm 4).
pub fn digits(x: &[u8], width: u32, out: &mut [u32])
    requires { (width ≤ 16) × (width * length out.old ≤ 8 * length x.now) }
    ensures { out.new ≡ base2b x.now width (length out.old) }
{
    let mut at = 0;
    let mut skip = 0;
    for d in out.iter_mut() {
        *d = digit(&x[at..], skip, width);
        at += ((skip + width) / 8) as usize;
        skip = (skip + width) % 8;
    }
}

// The steps that chains have left from the positions `ds`: of a value's own digits, the checksum. A comparison, since
// `saturating_sub` takes two instructions more for each.
fn steps_left(ds: &[u32]) -> u32
    requires { 15 * length ds.now < 2 ^ 32 }
    ensures { result ≡ steps ds.now }
{
    ds.iter().map(|&d| if d < 15 { 15 - d } else { 0 }).sum()
}

// The last two bytes of a number (FIPS 205, algorithm 3).
fn two_bytes(v: u32) -> [u8; 2]
    ensures { result ≡ to_byte v 2 }
{
    let [_, _, high, low] = v.to_be_bytes();
    [high, low]
}

// The chain digits of a value of n bytes with its checksum (FIPS 205, algorithm 7, lines 1 to 7).
pub fn chain_digits(x: &[u8], out: &mut [u32])
    requires { (30 * length x.now < 16 ^ 3) × (length out.old ≡ chains (length x.now)) }
    ensures { out.new ≡ chain_digits (length x.now) x.now }
{
    let (own, rest) = out.split_at_mut(2 * x.len());
    digits(x, 4, own);
    let sum = two_bytes(steps_left(own) * 16);
    digits(&sum, 4, rest);
}
