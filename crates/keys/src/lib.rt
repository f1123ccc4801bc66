// Keys (FIPS 205, algorithm 18).
#![tactic(auto)]

ghost use Rattle.std.specs.Prelude.{◌≡◌, ◌++◌, ◌+◌, length, take};
ghost use Rattle.rules.specs.Keys.{key_root, public_key, secret_key};
ghost use Rattle.rows.specs.Rows.{ruled_row};
ghost use Rattle.calls.specs.Hashes.{family_for};

use calls::{Hashes, Holder, kit_of};
use climbs::groves::Grove;
use rows::sets::Set;
use trees::nodes::node;

// The root of the single tree in the topmost layer (lines 1 to 3).
fn key_root(set: Set, sk: &[u8], pk: &[u8]) -> [u8; 32]
    ensures { take set.row.n result ≡ (key_root (ruled_row set.row) (family_for (ruled_row set.row)) sk.now
        pk.now).result }
{
    let kit = kit_of(set.row);
    let hashes = Hashes { kit, seed: pk };
    let holder = Holder { hashes, secret: sk };
    let top = Grove::Layer(set.row.d - 1, 0);
    node(&holder, top, set.row.hp, 0)
}

// Two strings, one after the other.
fn pair_in(a: &[u8], b: &[u8], out: &mut [u8])
    requires { length out.old ≡ length a.now + length b.now }
    ensures { out.new ≡ a.now ++ b.now }
{
    let (front, back) = out.split_at_mut(a.len());
    front.copy_from_slice(a);
    back.copy_from_slice(b);
}

// Both keys (line 4): public seed, root; and secret seed, prf seed, public seed, root.
pub fn keys_in(set: Set, sk: &[u8], prf: &[u8], pk: &[u8], public: &mut [u8], secret: &mut [u8])
    requires seeds_len { (length sk.now ≡ set.row.n) × (length prf.now ≡ set.row.n) × (length pk.now ≡ set.row.n) }
    requires keys_len { (length public.old ≡ set.row.public) × (length secret.old ≡ set.row.secret) }
    ensures public_after { public.new ≡ public_key (ruled_row set.row) (family_for (ruled_row set.row))
        sk.now pk.now }
    ensures secret_after { secret.new ≡ secret_key (ruled_row set.row) (family_for (ruled_row set.row))
        sk.now prf.now pk.now }
{
    let root = key_root(set, sk, pk);
    pair_in(pk, &root[..set.row.n], public);
    let (seeds, end) = secret.split_at_mut(2 * set.row.n);
    pair_in(sk, prf, seeds);
    end.copy_from_slice(public);
}
