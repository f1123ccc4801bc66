// The siblings along the way from a leaf to a root (FIPS 205, algorithms 10 and 16).
ghost use Rattle.std.specs.Prelude.{◌≡◌, ◌+◌, ◌*◌, ◌^◌, ◌≤◌, length};
ghost use Rattle.rules.specs.Trees.{sibling, path};
ghost use Rattle.calls.specs.Hashes.{ruled_hashes};
ghost use Rattle.climbs.specs.Groves.{tree_of};

use crate::nodes::node;
use calls::Holder;
use climbs::groves::Grove;

// The index of the other child of the same node.
#[tactic(auto, unfolding(rules::specs::Trees::sibling))]
fn sibling(j: u32) -> u32
    ensures { result ≡ sibling j }
{
    if j % 2 == 0 { j + 1 } else { j - 1 }
}

// The siblings from leaf i on, count heights, from the bottom up.
pub fn path_in(holder: &Holder, grove: Grove, count: u32, i: u32, out: &mut [u8])
    requires { (holder.now.hashes.kit.n ≤ 32) × (length out.old ≡ count * holder.now.hashes.kit.n)
        × (i + 2 ^ count ≤ 2 ^ 32) }
    ensures { out.new ≡ (path (ruled_hashes holder.now.hashes)
        (tree_of (ruled_hashes holder.now.hashes) holder.now.secret.now grove) count 0 i).result }
{
    let n = holder.hashes.kit.n;
    let mut j = i;
    for z in 0..count {
        let v = node(holder, grove, z, sibling(j));
        let at = z as usize * n;
        out[at..at + n].copy_from_slice(&v[..n]);
        j /= 2;
    }
}
