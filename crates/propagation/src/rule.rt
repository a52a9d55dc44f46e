ghost use Rattle.std.specs.Prelude.{◌≡◌, ◌≤◌, true, take};
ghost use Rattle.design.specs.Mark.{all_are_named};
ghost use Rattle.propagation.specs.Masks.{ups_of, downs_of};

use crate::sides::Sides;

// A rule: its marks as they were entered, the first `count` of eight, and beside them the choices
// that they take and those that they leave, so that a look at the rule is a few bit operations. Eight
// bytes and a count, since an `ArrayVec` cannot be copied.
#[derive(Clone, Copy)]
pub struct Rule {
    pub(crate) count: u8,
    pub(crate) marks: [i8; 8],
    pub sides: Sides,
    ghost short: { count ≤ 8 },
    ghost named: { all_are_named 64 (take count marks) ≡ true },
    ghost up_word: { sides.ups ≡ ups_of (take count marks) },
    ghost down_word: { sides.downs ≡ downs_of (take count marks) },
}
