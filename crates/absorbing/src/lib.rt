// The sponge of an extendable-output function over any rate of whole lanes, and how it takes bytes in. Whole lanes go
// in where the place is a lane's first.
#![tactic(auto)]

ghost use Rattle.std.specs.Prelude.{◌≡◌, ◌<◌, length};
ghost use Rattle.sponge.specs.Stream.{Rate, sponge, mixed, empty, turn as turned, feed, finish as finished};

use permutation::permute;

// The lanes, the rate in bytes, and the place of the next byte.
#[derive(Clone, Copy)]
pub struct Sponge {
    pub lanes: [u64; 25],
    pub rate: usize,
    pub at: usize,
    pub ghost whole: { Rate rate },
}

// A byte is added to that at a place.
fn mix(s: &mut [u64; 25], at: usize, b: u8)
    requires { at < 200 }
    ensures { s.new ≡ mixed s.old at b }
{
    s[at / 8] ^= u64::from(b) << (8 * (at % 8));
}

impl Sponge {
    // Before the first byte, at a rate.
    pub fn new(rate: usize) -> Self
        requires { Rate rate }
        ensures state_new { sponge result.lanes result.at ≡ empty }
        ensures rate_new { result.rate ≡ rate }
    {
        Sponge {
            lanes: [0; 25],
            rate,
            at: 0,
        }
    }

    // Past the rate the lanes are permuted, and the next byte's place is the first.
    pub fn turn(&mut self)
        ensures state_after { sponge self.new.lanes self.new.at
            ≡ turned self.old.rate (sponge self.old.lanes self.old.at) }
        ensures upper_bound { self.new.at < self.old.rate }
        ensures rate_after { self.new.rate ≡ self.old.rate }
    {
        if self.at >= self.rate {
            permute(&mut self.lanes);
            self.at = 0;
        }
    }

    // A lane goes in where the place is its first byte and eight are left, else one byte. Returns the rest.
    fn absorb_next<'a>(&mut self, m: &'a [u8]) -> &'a [u8]
        requires { (self.old.at < self.old.rate) × (0 < length m.now) }
        ensures fewer { length result.now < length m.now }
        ensures state_after { feed self.old.rate (sponge self.new.lanes self.new.at) result.now
            ≡ feed self.old.rate (sponge self.old.lanes self.old.at) m.now }
        ensures rate_after { self.new.rate ≡ self.old.rate }
    {
        if self.at % 8 == 0 {
            if let Some((lane, rest)) = m.split_first_chunk::<8>() {
                self.lanes[self.at / 8] ^= u64::from_le_bytes(*lane);
                self.at += 8;
                return rest;
            }
        }
        mix(&mut self.lanes, self.at, m[0]);
        self.at += 1;
        &m[1..]
    }

    // Absorbs the bytes m.
    pub fn absorb(&mut self, m: &[u8])
        ensures state_after { sponge self.new.lanes self.new.at
            ≡ feed self.old.rate (sponge self.old.lanes self.old.at) m.now }
        ensures rate_after { self.new.rate ≡ self.old.rate }
    {
        let mut rest = m;
        while !rest.is_empty() {
            self.turn();
            rest = self.absorb_next(rest);
        }
    }

    // Ends the message: the suffix 1111 and the padding.
    pub fn finish(&mut self)
        ensures state_after { sponge self.new.lanes self.new.at
            ≡ finished self.old.rate (sponge self.old.lanes self.old.at) }
        ensures rate_after { self.new.rate ≡ self.old.rate }
    {
        self.turn();
        mix(&mut self.lanes, self.at, 0x1f);
        mix(&mut self.lanes, self.rate - 1, 0x80);
        self.at = self.rate;
    }
}
