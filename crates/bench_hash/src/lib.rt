// SHAKE256 and its permutation for C and Rust programs that measure them.
#![tactic(auto)]

ghost use Rattle.std.specs.Prelude.{◌≡◌, length};
ghost use Rattle.keccak.specs.Keccak.{keccak_f};
ghost use Rattle.shake.specs.Shake.{shake256};

#[unsafe(no_mangle)]
pub extern "C" fn skimdral_permute(s: &mut [u64; 25])
    ensures { s.new ≡ keccak_f s.old }
{
    permutation::permute(s)
}

#[unsafe(no_mangle)]
pub extern "C" fn skimdral_shake256(m: &[u8], out: &mut [u8])
    ensures { out.new ≡ shake256 m.now (length out.old) }
{
    shake::digest(m, out)
}
