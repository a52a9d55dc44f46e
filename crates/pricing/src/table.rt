ghost use Rattle.std.specs.Prelude.{◌≡◌, ℕ, ◌<◌, ◌≤◌, true, [], ◌∷◌, ◌++◌, vec_len, vec_capacity};
ghost use Rattle.design.specs.Mark.{named};
ghost use Rattle.propagation.specs.Masks.{ups_of, downs_of};
ghost use Rattle.pricing.specs.Tables.{marks_in, take_side, leave_side};

use crate::list::PriceList;
use design::{Price, choice_bit};
use propagation::Sides;

// A price as one of taking a choice and one of leaving it.
fn sides(mark: i8, place: u8) -> (u8, u8)
    ensures { result ≡ (take_side mark place, leave_side mark place) }
{
    if mark >= 0 { (place, 0) } else { (0, place) }
}

impl PriceList {
    // No prices, in the memory that is handed in.
    pub fn new(entries: Vec<Price>) -> PriceList
        requires { entries.items ≡ [] }
        ensures { result.entries ≡ entries }
    {
        PriceList {
            entries,
            taking: [0; 64],
            leaving: [0; 64],
            sides: Sides::none(),
        }
    }

    // The prices in order of entry.
    pub fn as_slice(&self) -> &[Price]
        ensures { result.now ≡ self.now.entries.items }
    {
        self.entries.as_slice()
    }

    // One price more, in memory that is there already.
    pub fn push(&mut self, mark: i8, place: u8)
        requires named { named 64 mark ≡ true }
        requires room { vec_len self.old.entries < vec_capacity self.old.entries }
        ensures items { self.new.entries.items ≡ self.old.entries.items ++ record { mark = mark; place = place } ∷ [] }
        ensures room { vec_capacity self.old.entries ≤ vec_capacity self.new.entries }
    {
        let k = choice_bit(mark) as usize;
        let (take, leave) = sides(mark, place);
        self.taking[k] = self.taking[k].max(take);
        self.leaving[k] = self.leaving[k].max(leave);
        self.sides = self.sides.with(Sides::of(mark));
        self.entries.push_reserved(Price { mark, place });
    }
}
