// The sponge of an extendable-output function over any rate of whole lanes gives bytes out, from where the bytes that
// went in ended. Whole lanes come out where the place is a lane's first.
#![tactic(auto)]

ghost use Rattle.std.specs.Prelude.{◌≡◌, ◌≤◌, ◌<◌, length, take};
ghost use Rattle.sponge.specs.Stream.{sponge, draw, drawn};

use absorbing::Sponge;

// A lane comes out where the place is its first byte and there is room for eight, else one byte. Returns how many.
fn squeeze_next(s: &mut Sponge, out: &mut [u8]) -> usize
    requires { (s.old.at < s.old.rate) × (0 < length out.old) }
    ensures written { (0 < result) × (result ≤ length out.old) }
    ensures state_after { sponge s.new.lanes s.new.at ≡ drawn s.old.rate result (sponge s.old.lanes s.old.at) }
    ensures out_after { take result out.new ≡ draw s.old.rate result (sponge s.old.lanes s.old.at) }
    ensures rate_after { s.new.rate ≡ s.old.rate }
{
    let w = s.lanes[s.at / 8];
    if s.at % 8 == 0 && out.len() >= 8 {
        out[..8].copy_from_slice(&w.to_le_bytes());
        s.at += 8;
        return 8;
    }
    out[0] = ((w >> (8 * (s.at % 8))) % 256) as u8;
    s.at += 1;
    1
}

// Squeezes the next bytes into the whole of out.
pub fn squeeze(s: &mut Sponge, out: &mut [u8])
    ensures state_after { sponge s.new.lanes s.new.at
        ≡ drawn s.old.rate (length out.old) (sponge s.old.lanes s.old.at) }
    ensures out_after { out.new ≡ draw s.old.rate (length out.old) (sponge s.old.lanes s.old.at) }
    ensures rate_after { s.new.rate ≡ s.old.rate }
{
    // An index, since after a loop that shrinks a slice nothing is known of what was written to the whole.
    let mut i: usize = 0;
    while i < out.len() {
        s.turn();
        i += squeeze_next(s, &mut out[i..]);
    }
}
