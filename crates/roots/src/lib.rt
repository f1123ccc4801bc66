// The root that a seal leads to where its digest points (FIPS 205, algorithm 20, lines 14 to 17), under a set,
// with the F calls counted.
#![tactic(auto)]

ghost use Rattle.std.specs.Prelude.{◌≡◌, ◌^◌, length};
ghost use Rattle.lists.specs.Below.{Below};
ghost use Rattle.rules.specs.Check.{root_at};
ghost use Rattle.rows.specs.Rows.{ruled_row};
ghost use Rattle.calls.specs.Hashes.{family_for};
ghost use Rattle.climbs.specs.Leads.{Leads};
ghost use Rattle.points.specs.At.{at};

use calls::{Hashes, kit_of};
use climbs::Walked;
use climbs::groves::Pointed;
use forest_walks::forest_root;
use layer_walks::layers_root;
use rows::sets::Set;
use rows::sizes::forest_bytes;

// From the forest's part to what layer 0 seals, and from there up all layers.
pub fn root_at(set: Set, seed: &[u8], pointed: Pointed, indices: &[u32], seal: &[u8]) -> Walked
    requires seal_len { length seal.now ≡ set.row.seal }
    requires indices_fit { (length indices.now ≡ set.row.k) × Below (2 ^ set.row.a) indices.now }
    ensures { Leads set.row.n (root_at (ruled_row set.row) (family_for (ruled_row set.row)) seed.now
        seal.now (at pointed indices.now)) result }
{
    let n = set.row.n;
    let kit = kit_of(set.row);
    let hashes = Hashes { kit, seed };
    let end = n + forest_bytes(n, set.row.a, set.row.k);
    let low = forest_root(&hashes, pointed, set.row.a, indices, &seal[n..end]);
    let size = 1u64 << set.row.hp;
    let top = layers_root(
        &hashes,
        set.row.hp,
        size,
        set.row.d,
        pointed,
        low.value,
        &seal[end..],
    );
    Walked {
        calls: low.calls + top.calls,
        ..top
    }
}
