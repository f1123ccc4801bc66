// The sizes of the parts of a seal, for values of n bytes.
ghost use Rattle.std.specs.Prelude.{◌≡◌, ◌+◌, ◌*◌, ◌≤◌};
ghost use Rattle.rules.specs.Chains.{chains};

// How many chains a leaf has: two digits a byte, and three of the checksum.
pub fn chain_count(n: usize) -> usize
    requires { n ≤ 32 }
    ensures { result ≡ chains n }
{
    2 * n + 3
}

// The bytes of a value for each chain.
pub fn chain_bytes(n: usize) -> usize
    requires { n ≤ 32 }
    ensures { result ≡ chains n * n }
{
    chain_count(n) * n
}

// The bytes of a layer's part: a value for each chain, and a path of hp nodes.
pub fn layer_bytes(n: usize, hp: u32) -> usize
    requires { n ≤ 32 }
    ensures { result ≡ chains n * n + hp * n }
{
    chain_bytes(n) + (hp as usize) * n
}

// The bytes of a forest tree's part: a secret value, and a path of a nodes.
pub fn tree_bytes(n: usize, a: u32) -> usize
    requires { n ≤ 32 }
    ensures { result ≡ n + a * n }
{
    n + (a as usize) * n
}

// The bytes of the forest's part: that of each of its k trees.
pub fn forest_bytes(n: usize, a: u32, k: u32) -> usize
    requires { (n ≤ 32) × (k ≤ 35) }
    ensures { result ≡ k * (n + a * n) }
{
    (k as usize) * tree_bytes(n, a)
}
