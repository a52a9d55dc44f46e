ghost use Rattle.std.specs.Prelude.{◌≡◌, ℕ, ◌<◌, ◌≤◌, true};
ghost use Rattle.bits.specs.Bit.{bit};
ghost use Rattle.design.specs.Mark.{named};
ghost use Rattle.design.specs.Cost.{cost};
ghost use Rattle.pricing.specs.Bounds.{sure, sure_total, Excluded, Bounded, Least, AtMost, Cheap};

use crate::list::PriceList;
use bits::{has_bit, members_of, without};
use design::choice_bit;
use propagation::{Partial, Rule, Sides};
use scales::{Scale, join_places};

// Whether a mark is true whatever the open choices are.
fn is_sure(mark: i8, at: Partial) -> bool
    requires { named 64 mark ≡ true }
    ensures { result ≡ sure at mark }
{
    let against = if mark > 0 { at.down } else { at.up };
    !has_bit(against, choice_bit(mark))
}

// What is left where a mark is false.
fn exclude(at: Partial, mark: i8) -> Partial
    requires { named 64 mark ≡ true }
    ensures { Excluded at mark result }
{
    let sides = Sides::of(mark);
    Partial {
        up: without(at.up, sides.ups),
        down: without(at.down, sides.downs),
    }
}

// The least of a number and of a table's entries at the bits of a word.
fn least_at(table: &[u8; 64], word: u64, start: u8) -> u8
    ensures { AtMost table.now word start result }
{
    let mut least = start;
    for k in members_of(word) {
        least = least.min(table[k as usize]);
    }
    least
}

impl PriceList {
    // What the sure marks cost.
    fn sure_cost<S: Scale>(&self, at: Partial) -> u8
        ensures { result ≡ sure_total S.Scale.places self.now.entries.items at }
    {
        let mut sum = S::nothing();
        for price in self.entries.as_slice() {
            if is_sure(price.mark, at) {
                sum = S::join(sum, S::from_place(price.place));
            }
        }
        S::place_of(sum)
    }

    // The cost of a word.
    pub fn cost<S: Scale>(&self, word: u64) -> u8
        ensures { result ≡ cost S.Scale.places self.now.entries.items word }
    {
        self.sure_cost::<S>(Partial {
            up: word,
            down: word ^ u64::MAX,
        })
    }

    // Excludes the marks that would break a bound; nothing where the sure marks break it.
    pub fn within<S: Scale>(&self, bound: u8, at: Partial) -> Option<Partial>
        ensures { Bounded S.Scale.places self.now.entries.items bound at result }
    {
        if bound >= S::TOP {
            return Some(at);
        }
        let sum = self.sure_cost::<S>(at);
        if sum > bound {
            return None;
        }
        let mut here = at;
        for price in self.entries.as_slice() {
            if join_places::<S>(sum, price.place) > bound && !is_sure(price.mark, at) {
                here = exclude(here, price.mark);
            }
        }
        Some(here)
    }

    // No mark of these choices costs less.
    fn cheapest(&self, sides: Sides) -> u8
        ensures { Cheap self.now.entries.items sides.ups sides.downs result }
    {
        let taking = least_at(&self.taking, sides.ups, u8::MAX);
        least_at(&self.leaving, sides.downs, taking)
    }

    // What every setting that agrees and meets the rules costs at least: the sure marks, joined with
    // the cheapest mark of rules that share no choice.
    pub fn least<S: Scale>(&self, rules: &[Rule], at: Partial) -> u8
        ensures { Least S.Scale.places rules.now self.now.entries.items at result }
    {
        let mut sum = self.sure_cost::<S>(at);
        let mut seen = (at.up & at.down) ^ u64::MAX;
        for rule in rules {
            let open = rule.sides.possible(at);
            if (open.ups | open.downs) & seen == 0 {
                let price = self.cheapest(open);
                if price > 0 {
                    sum = join_places::<S>(sum, price);
                    seen |= open.ups | open.downs;
                }
            }
        }
        sum
    }
}
