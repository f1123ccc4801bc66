// SHAKE256 (FIPS 202) by pieces: `new`, any pieces absorbed, and then `end`, or `finish` once and any pieces squeezed.
// Callers go by these contracts and the laws of proofs/Laws.antt.
#![tactic(auto)]

ghost use Rattle.std.specs.Prelude.{◌≡◌, length};
ghost use Rattle.shake.specs.Shake.{rate256, shake256};
ghost use Rattle.sponge.specs.Stream.{empty, feed, finish as finished, draw, drawn};

use absorbing::Sponge;

// The rate in bytes: 1600 - 512 bits.
const RATE: usize = 136;

// The sponge at SHAKE256's rate, with any lanes and any place. Its methods say what the sponge's say at that rate, so
// that callers go by no other.
#[derive(Clone, Copy)]
pub struct Shake256 {
    pub sponge: Sponge,
    pub ghost rate: { sponge.rate ≡ rate256 },
}

impl Shake256 {
    ghost use Rattle.shake.specs.State.{state};

    // Before the first byte.
    pub fn new() -> Self
        ensures { state result ≡ empty }
    {
        Shake256 {
            sponge: Sponge::new(RATE),
        }
    }

    // Absorbs the bytes m.
    pub fn absorb(&mut self, m: &[u8])
        ensures { state self.new ≡ feed rate256 (state self.old) m.now }
    {
        self.sponge.absorb(m);
    }

    // Ends the message.
    pub fn finish(&mut self)
        ensures { state self.new ≡ finished rate256 (state self.old) }
    {
        self.sponge.finish();
    }

    // Squeezes the next bytes into the whole of out.
    pub fn squeeze(&mut self, out: &mut [u8])
        ensures state_after { state self.new ≡ drawn rate256 (length out.old) (state self.old) }
        ensures out_after { out.new ≡ draw rate256 (length out.old) (state self.old) }
    {
        squeezing::squeeze(&mut self.sponge, out);
    }

    // The message ends, and the whole of out is filled.
    pub fn end(&mut self, out: &mut [u8])
        ensures { out.new ≡ draw rate256 (length out.old) (finished rate256 (state self.old)) }
    {
        self.finish();
        self.squeeze(out);
    }
}

// SHAKE256 of one piece fills out.
pub fn digest(m: &[u8], out: &mut [u8])
    ensures { out.new ≡ shake256 m.now (length out.old) }
{
    let mut s = Shake256::new();
    s.absorb(m);
    s.end(out);
}
