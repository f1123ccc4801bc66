// The hash calls that take an address (FIPS 205, sections 4.1 and 11). Callers go by the rules' family and see no hash.
#![tactic(auto)]

ghost use Rattle.std.specs.Prelude.{◌≡◌, ◌++◌, ◌≤◌, length, take};
ghost use Rattle.sponge.specs.Stream.{empty, feed};
ghost use Rattle.shake.specs.Shake.{rate256, shake256};
ghost use Rattle.shake.specs.State.{state};
ghost use Rattle.rules.specs.Calls.{Function};
ghost use Rattle.addresses.specs.Addresses.{bytes_of};
ghost use Rattle.calls.specs.Hashes.{kit_for, ruled_hashes};

use addresses::{Address, address_bytes};
use rows::Row;
use shake::Shake256;

// The hash functions of a set, for values of n bytes and digests of m bytes.
#[derive(Clone, Copy)]
pub struct Kit {
    pub n: usize,
    pub m: usize,
}

// The kit of a row.
pub fn kit_of(row: Row) -> Kit
    ensures { result ≡ kit_for row }
{
    Kit { n: row.n, m: row.m }
}

// The hash functions that take an address, under a public seed. That values have at most 32 bytes is asked where one is
// handed out; `f_in` and `secret_in` take any length, so it is no fact of the type.
#[derive(Clone, Copy)]
pub struct Hashes<'a> {
    pub kit: Kit,
    pub seed: &'a [u8],
}

// The holder of a key: the hash functions under its public seed, and its secret seed.
#[derive(Clone, Copy)]
pub struct Holder<'a> {
    pub hashes: Hashes<'a>,
    pub secret: &'a [u8],
}

// How a call begins: the public seed, and the address.
fn begun(seed: &[u8], adrs: Address) -> Shake256
    ensures { state result ≡ feed rate256 (feed rate256 empty seed.now) (bytes_of adrs) }
{
    let mut s = Shake256::new();
    s.absorb(seed);
    s.absorb(&address_bytes(adrs));
    s
}

// A call with one input.
fn call(seed: &[u8], adrs: Address, input: &[u8], out: &mut [u8])
    ensures { out.new ≡ shake256 (seed.now ++ (bytes_of adrs ++ input.now)) (length out.old) }
{
    let mut s = begun(seed, adrs);
    s.absorb(input);
    s.end(out);
}

// A call with one input, by value.
fn call_value(n: usize, seed: &[u8], adrs: Address, input: &[u8]) -> [u8; 32]
    requires { n ≤ 32 }
    ensures { take n result ≡ shake256 (seed.now ++ (bytes_of adrs ++ input.now)) n }
{
    let mut out = [0u8; 32];
    call(seed, adrs, input, &mut out[..n]);
    out
}

impl<'a> Hashes<'a> {
    // F in place.
    pub fn f_in(&self, adrs: Address, io: &mut [u8])
        requires { length io.old ≡ self.now.kit.n }
        ensures { io.new ≡ (ruled_hashes self.now).hash Function.F (bytes_of adrs) io.old }
    {
        let mut s = begun(self.seed, adrs);
        s.absorb(io);
        s.end(io);
    }

    // F of a value.
    pub fn f(&self, adrs: Address, input: &[u8]) -> [u8; 32]
        requires { self.now.kit.n ≤ 32 }
        ensures { take self.now.kit.n result ≡ (ruled_hashes self.now).hash Function.F (bytes_of adrs) input.now }
    {
        call_value(self.kit.n, self.seed, adrs, input)
    }

    // T of joined values: another function of the standard than F, though SHAKE256 gives both one body.
    pub fn t(&self, adrs: Address, input: &[u8]) -> [u8; 32]
        requires { self.now.kit.n ≤ 32 }
        ensures { take self.now.kit.n result ≡ (ruled_hashes self.now).hash Function.T (bytes_of adrs) input.now }
    {
        call_value(self.kit.n, self.seed, adrs, input)
    }

    // H of two values.
    pub fn h(&self, adrs: Address, left: &[u8], right: &[u8]) -> [u8; 32]
        requires { self.now.kit.n ≤ 32 }
        ensures { take self.now.kit.n result
            ≡ (ruled_hashes self.now).hash Function.H (bytes_of adrs) (left.now ++ right.now) }
    {
        let mut s = begun(self.seed, adrs);
        s.absorb(left);
        s.absorb(right);
        let mut out = [0u8; 32];
        s.end(&mut out[..self.kit.n]);
        out
    }
}

impl<'a> Holder<'a> {
    // A secret value.
    pub fn secret_in(&self, adrs: Address, out: &mut [u8])
        requires { length out.old ≡ self.now.hashes.kit.n }
        ensures { out.new ≡ (ruled_hashes self.now.hashes).hash Function.PRF (bytes_of adrs) self.now.secret.now }
    {
        call(self.hashes.seed, adrs, self.secret, out);
    }
}
