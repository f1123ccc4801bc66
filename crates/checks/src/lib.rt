// The root that a seal leads to (FIPS 205, algorithm 20), under a set, with the F calls counted.
#![tactic(auto)]

ghost use Rattle.std.specs.Prelude.{◌≡◌, length};
ghost use Rattle.message_calls.specs.Framed.{joined};
ghost use Rattle.rules.specs.Check.{checked_root};
ghost use Rattle.rows.specs.Rows.{ruled_row};
ghost use Rattle.calls.specs.Hashes.{family_for};
ghost use Rattle.climbs.specs.Leads.{Leads};

use climbs::Walked;
use message_calls::Framed;
use points::aim;
use roots::root_at;
use rows::sets::Set;

// The root that a seal of a framed message leads to under a public key.
pub fn checked_root(set: Set, public: &[u8], framed: &Framed, seal: &[u8]) -> Walked
    requires { (length public.now ≡ set.row.public) × (length seal.now ≡ set.row.seal) }
    ensures { Leads set.row.n (checked_root (ruled_row set.row) (family_for (ruled_row set.row))
        public.now (joined framed.now) seal.now) result }
{
    let n = set.row.n;
    let mut indices = [0u32; 35];
    let indices = &mut indices[..set.row.k as usize];
    let pointed = aim(set, &seal[..n], &public[..n], &public[n..], framed, indices);
    root_at(set, &public[..n], pointed, indices, seal)
}
