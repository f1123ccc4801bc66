// The hash calls that take a message (FIPS 205, sections 4.1 and 11): the randomizer and the digest.
#![tactic(auto)]

ghost use Rattle.std.specs.Prelude.{◌≡◌, length};
ghost use Rattle.sponge.specs.Stream.{feed};
ghost use Rattle.shake.specs.Shake.{rate256};
ghost use Rattle.shake.specs.State.{state};
ghost use Rattle.calls.specs.Hashes.{family_of};
ghost use Rattle.message_calls.specs.Framed.{joined};

use calls::{Hashes, Kit};
use shake::Shake256;

// A framed message: what precedes the message, in two pieces, and the message.
#[derive(Clone, Copy)]
pub struct Framed<'a> {
    pub head: &'a [u8],
    pub context: &'a [u8],
    pub message: &'a [u8],
}

// The framed message goes in, after what was absorbed before.
fn absorb_framed(s: &mut Shake256, framed: &Framed)
    ensures { state s.new ≡ feed rate256 (state s.old) (joined framed.now) }
{
    s.absorb(framed.head);
    s.absorb(framed.context);
    s.absorb(framed.message);
}

// The randomizer R.
pub fn randomizer_in(kit: Kit, prf: &[u8], mixed: &[u8], framed: &Framed, out: &mut [u8])
    requires { length out.old ≡ kit.n }
    ensures { out.new ≡ (family_of kit).prf_msg prf.now mixed.now (joined framed.now) }
{
    let mut s = Shake256::new();
    s.absorb(prf);
    s.absorb(mixed);
    absorb_framed(&mut s, framed);
    s.end(out);
}

// The digest of the framed message.
pub fn digest_in(hashes: &Hashes, r: &[u8], root: &[u8], framed: &Framed, out: &mut [u8])
    requires { length out.old ≡ hashes.now.kit.m }
    ensures { out.new ≡ (family_of hashes.now.kit).h_msg r.now hashes.now.seed.now root.now (joined framed.now) }
{
    let mut s = Shake256::new();
    s.absorb(r);
    s.absorb(hashes.seed);
    s.absorb(root);
    absorb_framed(&mut s, framed);
    s.end(out);
}
