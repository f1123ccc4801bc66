// A round: a key pair is made, a message sealed with it, and the seal checked under it.
#![tactic(auto)]

ghost use Rattle.rules.specs.Sets.{row_of};
ghost use Rattle.round.specs.Round.{Rounded};

use answers::Answer;
use checking::check;
use making::make_keys;
use sealing::seal;

// The three answers, and the F calls of the check.
#[derive(Clone, Copy, Debug, PartialEq, Eq)]
pub struct Round {
    pub made: Answer,
    pub sealed: Answer,
    pub checked: Answer,
    pub calls: u32,
}

// In the room lent. Where key making and sealing answer 0, so does the check.
pub fn make_seal_check(
    set: u32,
    secret_seed: &[u8],
    prf_seed: &[u8],
    public_seed: &[u8],
    message: &[u8],
    random: &[u8],
    public: &mut [u8],
    secret: &mut [u8],
    out: &mut [u8],
) -> Round
    ensures { Rounded (row_of set) secret_seed.now prf_seed.now
        public_seed.now message.now random.now public.old
        secret.old out.old result public.new secret.new out.new }
{
    let made = make_keys(set, secret_seed, prf_seed, public_seed, public, secret);
    let sealed = seal(set, secret, message, random, out);
    let verdict = check(set, public, message, out);
    Round {
        made,
        sealed,
        checked: verdict.answer,
        calls: verdict.calls,
    }
}
