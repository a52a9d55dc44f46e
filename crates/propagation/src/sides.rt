ghost use Rattle.std.specs.Prelude.{◌≡◌, true, bit_and, bit_or};
ghost use Rattle.design.specs.Mark.{named};
ghost use Rattle.propagation.specs.Masks.{up_bit, down_bit};

use crate::partial::Partial;
use design::choice_bit;

// Choices by what is said of them, as words: those to be taken, and those to be left.
#[derive(Clone, Copy, PartialEq, Eq, Debug)]
pub struct Sides {
    pub ups: u64,
    pub downs: u64,
}

impl Sides {
    pub fn none() -> Sides
        ensures { result ≡ record { ups = 0; downs = 0 } }
    {
        Sides { ups: 0, downs: 0 }
    }

    // The choice of a mark.
    pub fn of(mark: i8) -> Sides
        requires { named 64 mark ≡ true }
        ensures { result ≡ record { ups = up_bit mark; downs = down_bit mark } }
    {
        let choice = 1 << choice_bit(mark);
        if mark > 0 {
            Sides {
                ups: choice,
                downs: 0,
            }
        } else {
            Sides {
                ups: 0,
                downs: choice,
            }
        }
    }

    // The choices of both.
    pub fn with(self, other: Sides) -> Sides
        ensures { result ≡ record { ups = bit_or self.ups other.ups; downs = bit_or self.downs other.downs } }
    {
        Sides {
            ups: self.ups | other.ups,
            downs: self.downs | other.downs,
        }
    }

    // Those of them that may still be so.
    pub fn possible(self, at: Partial) -> Sides
        ensures { result ≡ record { ups = bit_and self.ups at.up; downs = bit_and self.downs at.down } }
    {
        Sides {
            ups: self.ups & at.up,
            downs: self.downs & at.down,
        }
    }
}
