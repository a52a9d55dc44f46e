ghost use Rattle.std.specs.Prelude.{◌≡◌};
ghost use Rattle.std.specs.Iterator.{at_most};
ghost use Rattle.bits.specs.Bit.{Takes};

use crate::{highest_index, without_bit};

// The indices of a word's bits, the highest first.
#[derive(Clone, Copy)]
pub struct Members {
    pub(crate) left: u64,
}

pub fn members_of(word: u64) -> Members
    ensures { result.left ≡ word }
{
    Members { left: word }
}

impl Iterator for Members {
    type Item = u32;

    ghost next_gives = { λ s r t. Takes s.left r t.left };

    ghost remaining = { λ s. at_most s.left };

    fn next(&mut self) -> Option<u32> {
        if self.left == 0 {
            return None;
        }
        let index = highest_index(self.left);
        self.left = without_bit(self.left, index);
        Some(index)
    }
}
