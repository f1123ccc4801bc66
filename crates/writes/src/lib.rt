// What sealing writes after the randomizer (FIPS 205, algorithm 19, lines 11 to 17), under a set. Seeds come one by
// one, since the kit of a `Holder` would have to be the set's.
#![tactic(auto)]

ghost use Rattle.std.specs.Prelude.{◌≡◌, ◌+◌, ◌-◌, ◌*◌, ◌^◌, ◌<◌, length, take};
ghost use Rattle.lists.specs.Below.{Below};
ghost use Rattle.rules.specs.Calls.{under};
ghost use Rattle.rules.specs.Layers.{layers_seal};
ghost use Rattle.rules.specs.Forest.{forest_seal, forest_root};
ghost use Rattle.rules.specs.Seal.{written};
ghost use Rattle.rows.specs.Rows.{ruled_row};
ghost use Rattle.rows.specs.Shapes.{forest_size, layer_size};
ghost use Rattle.calls.specs.Hashes.{family_for};
ghost use Rattle.points.specs.At.{at};

use calls::{Hashes, Holder, kit_of};
use climbs::groves::Pointed;
use forest_walks::forest_root;
use forest_writes::forest_seal_in;
use rows::sets::Set;
use rows::sizes::forest_bytes;
use stack_writes::layers_seal_in;

// The forest's part, and the value that it leads to, which layer 0 seals (lines 11 to 15).
fn forest_up_in(
    set: Set,
    seed: &[u8],
    sk: &[u8],
    pointed: Pointed,
    indices: &[u32],
    out: &mut [u8],
) -> [u8; 32]
    requires lent_len { length out.old ≡ forest_size (ruled_row set.row) }
    requires indices_fit { (length indices.now ≡ set.row.k) × Below (2 ^ set.row.a) indices.now }
    ensures out_after { out.new ≡ (forest_seal (under (family_for (ruled_row set.row)) seed.now)
        pointed.tree pointed.leaf set.row.a sk.now 0 indices.now).result }
    ensures result_value { take set.row.n result ≡ (forest_root (under (family_for (ruled_row set.row)) seed.now)
        pointed.tree pointed.leaf set.row.a indices.now out.new).result }
{
    let kit = kit_of(set.row);
    let hashes = Hashes { kit, seed };
    let holder = Holder { hashes, secret: sk };
    forest_seal_in(&holder, pointed, set.row.a, indices, out);
    forest_root(&hashes, pointed, set.row.a, indices, out).value
}

// The layers' parts, for the value m that layer 0 seals (lines 16 and 17).
fn layers_in(set: Set, seed: &[u8], sk: &[u8], pointed: Pointed, m: [u8; 32], out: &mut [u8])
    requires { (length out.old ≡ set.row.d * layer_size (ruled_row set.row)) × (pointed.leaf < 2 ^ set.row.hp) }
    ensures { out.new ≡ (layers_seal (under (family_for (ruled_row set.row)) seed.now) set.row.hp
        sk.now (set.row.d - 1) 0 pointed.tree pointed.leaf (take set.row.n m)).result }
{
    let kit = kit_of(set.row);
    let hashes = Hashes { kit, seed };
    let holder = Holder { hashes, secret: sk };
    let size = 1u64 << set.row.hp;
    layers_seal_in(&holder, set.row.hp, size, set.row.d, pointed, m, out);
}

// What follows the randomizer, where the digest points (lines 11 to 17).
#[tactic(auto, unfolding(rules::specs::Seal::written))]
pub fn written_in(
    set: Set,
    seed: &[u8],
    sk: &[u8],
    pointed: Pointed,
    indices: &[u32],
    out: &mut [u8],
)
    requires lent_len { length out.old + set.row.n ≡ set.row.seal }
    requires aim_fits { (length indices.now ≡ set.row.k) × Below (2 ^ set.row.a) indices.now
        × (pointed.leaf < 2 ^ set.row.hp) }
    ensures { out.new ≡ (written (ruled_row set.row) (family_for (ruled_row set.row)) sk.now
        seed.now (at pointed indices.now)).result }
{
    let (forest, layers) = out.split_at_mut(forest_bytes(set.row.n, set.row.a, set.row.k));
    let v = forest_up_in(set, seed, sk, pointed, indices, forest);
    layers_in(set, seed, sk, pointed, v, layers);
}
