//! The words that the machine writes, and where it writes them.

ghost use Rattle.std.specs.Prelude.{◌≡◌, ◌<◌, ◌+◌, ◌*◌, ◌^◌};
ghost use Rattle.built_code.specs.Words.{number_word, signed_number};

/// The address of the word that tells all threads to halt, where it isn't 0.
pub const HALT: u32 = 1_048_576;

/// The word of thread t that tells that it has returned stands t behind this address.
pub const DONE: u32 = HALT + 64;

/// The word for the result of thread t stands t behind this address.
pub const RESULT: u32 = HALT + 128;

// The tag of a number stands above its bits.
const NUMBER_TAG: u64 = 2 << 60;

/// The word of a number with these bits: 0 for 0, else the tag 2 above them.
pub fn number_word(bits: u32) -> u64
    ensures { result ≡ number_word bits }
{
    if bits == 0 {
        0
    } else {
        NUMBER_TAG + u64::from(bits)
    }
}

/// The number of type int with these bits (two's complement; C17, section 6.2.6.2).
pub fn signed_number(bits: u32) -> i32
    ensures { result ≡ signed_number bits }
{
    bits.cast_signed()
}
