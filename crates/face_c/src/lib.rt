// The exported functions: those of `face`, with the same promises, for a static library that C and Rust programs link.
// No crate can import a static library, so they stand in both.
#![tactic(auto)]

ghost use Rattle.std.specs.Prelude.{◌≡◌};
ghost use Rattle.rules.specs.Sets.{row_of};
ghost use Rattle.making.specs.Keys.{KeysMade};
ghost use Rattle.sealing.specs.Seals.{Sealed};
ghost use Rattle.part_reading.specs.Parts.{part_answer, start_given, length_given};
ghost use Rattle.digit_reading.specs.Digits.{DigitsRead};
ghost use Rattle.face.specs.Numbered.{Numbered, CheckedAs};

#[unsafe(no_mangle)]
pub extern "C" fn skimdral_make_keys(
    set: u32,
    secret_seed: &[u8],
    prf_seed: &[u8],
    public_seed: &[u8],
    public_key: &mut [u8],
    secret_key: &mut [u8],
) -> u32
    ensures { Numbered result (λ a. KeysMade (row_of set) secret_seed.now prf_seed.now
        public_seed.now public_key.old secret_key.old a
        public_key.new secret_key.new) }
{
    face::skimdral_make_keys(
        set,
        secret_seed,
        prf_seed,
        public_seed,
        public_key,
        secret_key,
    )
}

#[unsafe(no_mangle)]
pub extern "C" fn skimdral_seal<'a>(
    set: u32,
    secret_key: &'a [u8],
    message: &[u8],
    random: &'a [u8],
    seal: &mut [u8],
) -> u32
    ensures { Numbered result (λ a. Sealed (row_of set) secret_key.now message.now
        random.now seal.old a seal.new) }
{
    face::skimdral_seal(set, secret_key, message, random, seal)
}

// The F calls are written through f_calls.
#[unsafe(no_mangle)]
pub extern "C" fn skimdral_check(
    set: u32,
    public_key: &[u8],
    message: &[u8],
    seal: &[u8],
    f_calls: &mut u32,
) -> u32
    ensures { Numbered result (λ a. CheckedAs (row_of set) public_key.now message.now
        seal.now a f_calls.new) }
{
    face::skimdral_check(set, public_key, message, seal, f_calls)
}

// Where the part lies in the seal is written through start and length: 0 and 0 with a refusal.
#[unsafe(no_mangle)]
pub extern "C" fn skimdral_part(
    set: u32,
    seal: &[u8],
    number: u32,
    start: &mut usize,
    length: &mut usize,
) -> u32
    ensures answer { result ≡ part_answer (row_of set) seal.now number }
    ensures start_after { start.new ≡ start_given (row_of set) seal.now number }
    ensures length_after { length.new ≡ length_given (row_of set) seal.now number }
{
    face::skimdral_part(set, seal, number, start, length)
}

#[unsafe(no_mangle)]
pub extern "C" fn skimdral_digits(set: u32, value: &[u8], digits: &mut [u32]) -> u32
    ensures { Numbered result (λ a. DigitsRead (row_of set) value.now digits.old a
        digits.new) }
{
    face::skimdral_digits(set, value, digits)
}
