// The desk run as a program: keys of both sets, then, under set 2, which seals faster, seals, checks and both readings.
// Each operation writes a line or two; second/tests/run.rs works them out and holds `stdout` to them.
#![tactic(auto)]

use answers::{Answer, number_of};
use std::io;

fn hex(rt: &impl Print, bytes: &[u8]) -> io::Result<()> {
    for byte in bytes {
        print!(rt; "{byte:02x}")?;
    }
    Ok(())
}

// The answer, a number, and 32 bytes of SHAKE256 of the bytes.
fn line(rt: &impl Print, given: Answer, number: u64, bytes: &[u8]) -> io::Result<()> {
    let mut out = [0u8; 32];
    shake::digest(bytes, &mut out);
    print!(rt; "{} {number} ", number_of(given))?;
    hex(rt, &out)?;
    println!(rt;)
}

fn written(rt: &impl Print, given: Answer, bytes: &[u8]) -> io::Result<()> {
    line(rt, given, bytes.len() as u64, bytes)
}

fn keys(rt: &impl Print, set: u32, public: &mut [u8], secret: &mut [u8]) -> io::Result<()> {
    let given = making::make_keys(set, &[1; 16], &[2; 16], &[3; 16], public, secret);
    written(rt, given, public)?;
    written(rt, given, secret)
}

// The F calls, and the seal that was checked.
fn check(rt: &impl Print, public: &[u8], seal: &[u8]) -> io::Result<()> {
    let verdict = checking::check(2, public, b"abc", seal);
    let given = verdict.answer;
    line(rt, given, u64::from(verdict.calls), seal)
}

fn seal<'a>(
    rt: &impl Print,
    public: &[u8],
    secret: &'a [u8],
    random: &'a [u8],
    out: &mut [u8],
) -> io::Result<()> {
    let given = sealing::seal(2, secret, b"abc", random, out);
    written(rt, given, out)?;
    check(rt, public, out)
}

fn forest(rt: &impl Print, seal: &[u8]) -> io::Result<()> {
    let part = part_reading::part(2, seal, 1);
    written(rt, part_reading::part_answer(2, seal, 1), part)
}

// A seal cut short, and with its first byte flipped.
fn damage(rt: &impl Print, public: &[u8], seal: &mut [u8]) -> io::Result<()> {
    let end = seal.len() / 2;
    check(rt, public, &seal[..end])?;
    if 0 < end {
        seal[0] ^= 255;
        check(rt, public, seal)?;
    }
    Ok(())
}

fn seals(rt: &impl Print, public: &[u8], secret: &[u8], out: &mut [u8]) -> io::Result<()> {
    seal(rt, public, secret, b"", out)?;
    seal(rt, public, secret, &[4; 16], out)?;
    forest(rt, out)?;
    damage(rt, public, out)
}

// A digit of the checksum, on which all others bear, and the value.
fn digits(rt: &impl Print, set: u32) -> io::Result<()> {
    let value = [0x57u8; 16];
    let mut numbers = [0u32; 35];
    let given = digit_reading::chain_digits(set, &value, &mut numbers);
    line(rt, given, u64::from(numbers[33]), &value)
}

fn main(rt: HostRuntime) -> io::Result<()> {
    let mut public = [0u8; 32];
    let mut secret = [0u8; 64];
    let mut out = [0u8; 17088];
    keys(&rt, 1, &mut public, &mut secret)?;
    keys(&rt, 2, &mut public, &mut secret)?;
    seals(&rt, &public, &secret, &mut out)?;
    digits(&rt, 2)?;
    digits(&rt, 9)
}
