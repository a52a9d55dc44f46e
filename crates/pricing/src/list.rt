ghost use Rattle.std.specs.Prelude.{◌≡◌, true};
ghost use Rattle.design.specs.Mark.{all_are_named};
ghost use Rattle.propagation.specs.Masks.{ups_of, downs_of};
ghost use Rattle.pricing.specs.Tables.{marks_in, take_mark, leave_mark, Tabled};

use design::Price;
use propagation::Sides;

// The prices of one cost, in order of entry, and beside them what the search asks of them: the price
// of taking and of leaving each choice (0 for none), and the choices that have one.
// `taking` and `leaving` are two arrays, since each is looked along by a word of its own.
#[derive(Drop)]
pub struct PriceList {
    pub(crate) entries: Vec<Price>,
    pub(crate) taking: [u8; 64],
    pub(crate) leaving: [u8; 64],
    pub(crate) sides: Sides,
    ghost named: { all_are_named 64 (marks_in entries.items) ≡ true },
    ghost take_table: { Tabled take_mark taking entries.items },
    ghost leave_table: { Tabled leave_mark leaving entries.items },
    ghost up_word: { sides.ups ≡ ups_of (marks_in entries.items) },
    ghost down_word: { sides.downs ≡ downs_of (marks_in entries.items) },
}

impl PriceList {
    // The choices that cost something to take, and those that cost something to leave.
    pub fn priced_choices(&self) -> Sides
        ensures { result ≡ record { ups = ups_of (marks_in self.now.entries.items); downs = downs_of (marks_in self.now.entries.items) } }
    {
        self.sides
    }
}
