ghost use Rattle.std.specs.Prelude.{◌≡◌, ℤ, ◌<◌, true, nat_abs};
ghost use Rattle.std.specs.List.{list_all};
ghost use Rattle.design.specs.Mark.{named, holds, bit_of};

use bits::has_bit;

// A mark n says that choice n is taken, and -n that it is left. Judges keep marks in bytes, and
// solvers in 16 bits.
pub trait Mark: Copy {
    ghost number: { Self → ℤ };

    // The choice that it names, from 1; 0 where it names none.
    fn choice(self) -> u16
        ensures { result ≡ nat_abs (number self) };
}

impl Mark for i8 {
    ghost number = { λ m. m };

    fn choice(self) -> u16 {
        u16::from(self.unsigned_abs())
    }
}

impl Mark for i16 {
    ghost number = { λ m. m };

    fn choice(self) -> u16 {
        self.unsigned_abs()
    }
}

// The mark names one of the choices 1 to n.
pub fn is_named<M: Mark>(mark: M, n: u16) -> bool
    ensures { result ≡ named n (M.Mark.number mark) }
{
    mark.choice() != 0 && mark.choice() <= n
}

pub fn all_named<M: Mark>(marks: &[M], n: u16) -> bool
    ensures { result ≡ list_all (λ m. named n (M.Mark.number m)) marks.now }
{
    marks.iter().all(|mark| is_named(*mark, n))
}

// The bit of a mark's choice: the one step from counting from one to counting from zero.
pub fn choice_bit(mark: i8) -> u32
    requires { named 64 mark ≡ true }
    ensures bit { result ≡ bit_of mark }
    ensures low { result < 64 }
{
    u32::from(mark.choice()) - 1
}

// Whether a mark is true of a setting.
pub fn is_true(word: u64, mark: i8) -> bool
    requires { named 64 mark ≡ true }
    ensures { result ≡ holds word mark }
{
    has_bit(word, choice_bit(mark)) == (mark > 0)
}
