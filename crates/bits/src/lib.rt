// Words of 64 bits as sets: the few operations that the search is made of, with what they do to
// each bit.
#![tactic(auto)]

mod members;

ghost use Rattle.std.specs.Prelude.{◌≡◌, ℕ, ◌-◌, ◌^◌, ◌<◌, ◌≤◌, true, not, ◌&&◌};
ghost use Rattle.bits.specs.Bit.{bit, Single};

pub use members::{Members, members_of};

// Whether bit k is set, by shift and mask.
pub fn has_bit(word: u64, k: u32) -> bool
    requires { k < 64 }
    ensures { result ≡ bit word k }
{
    (word >> k) & 1 == 1
}

// The index of the highest bit of a word that has one.
pub fn highest_index(word: u64) -> u32
    requires { 0 < word }
    ensures low { result < 64 }
    ensures inside { bit word result ≡ true }
{
    63 - word.leading_zeros()
}

// The highest bit of a word that has one, as a word.
pub fn highest_bit(word: u64) -> u64
    requires { 0 < word }
    ensures { Single word result }
{
    1 << highest_index(word)
}

// The word with a second word's bits dropped.
pub fn without(word: u64, drop: u64) -> u64
    ensures bits { (k : ℕ) → bit result k ≡ (bit word k && not (bit drop k)) }
    ensures less { result ≤ word }
{
    word ^ (word & drop)
}

// The word with one of its bits dropped.
pub fn without_bit(word: u64, k: u32) -> u64
    requires low { k < 64 }
    requires inside { bit word k ≡ true }
    ensures bits { (j : ℕ) → bit result j ≡ (bit word j && not (bit (2 ^ k) j)) }
    ensures less { result < word }
{
    without(word, 1 << k)
}

// The word of the lowest n bits.
pub fn lowest(n: u8) -> u64
    requires { (0 < n) × (n ≤ 64) }
    ensures { result ≡ 2 ^ n - 1 }
{
    u64::MAX >> (64 - n)
}
