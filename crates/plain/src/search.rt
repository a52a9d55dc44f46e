ghost use Rattle.std.specs.Prelude.{◌≡◌, ℕ, ◌≤◌, true};
ghost use Rattle.propagation.specs.Narrowing.{Nowhere};
ghost use Rattle.plain.specs.Search.{Settled, Found, Fitting};
ghost use Rattle.plain.specs.Asked.{query};
ghost use Rattle.plain.specs.Held.{pair_of};

use crate::state::Plain;
use propagation::{Partial, ease, split, sweep};
use scales::Scale;

impl<A: Scale, B: Scale> Plain<A, B> {
    // Rules and bounds applied until nothing more follows; nothing where one cannot be kept. It is a
    // `loop`, since it counts nothing.
    fn settle(&self, a: u8, b: u8, at: Partial) -> Option<Partial>
        ensures { Settled (query (pair_of A.Scale.places B.Scale.places) self.now a b) at result }
    {
        let mut here = at;
        loop {
            let swept = sweep(self.rules.as_slice(), here)?;
            let within_a = self.prices_a.within(a, swept)?;
            let next = self.prices_b.within(b, within_a)?;
            if next == here {
                return Some(here);
            }
            here = next;
        }
    }

    // Whether even the least that a plan can cost is past a bound.
    fn is_hopeless(&self, a: u8, b: u8, at: Partial) -> bool
        ensures { result ≡ true → Nowhere (Fitting (query (pair_of A.Scale.places B.Scale.places) self.now a b)) at.up at.down }
    {
        let rules = self.rules.as_slice();
        a < A::TOP && self.prices_a.least(rules, at) > a
            || b < B::TOP && self.prices_b.least(rules, at) > b
    }

    // A setting that agrees with `at`, meets the rules and costs at most the bounds.
    pub(crate) fn search(&self, a: u8, b: u8, at: Partial) -> Option<u64>
        ensures { Found (query (pair_of A.Scale.places B.Scale.places) self.now a b) at result }
    {
        let here = self.settle(a, b, at)?;
        if here.up & here.down == 0 {
            return Some(here.up);
        }
        if self.is_hopeless(a, b, here) {
            return None;
        }
        let priced_a = self.prices_a.priced_choices();
        let priced = priced_a.with(self.prices_b.priced_choices());
        let eased = ease(self.rules.as_slice(), priced, here);
        if eased != here {
            return self.search(a, b, eased);
        }
        let (first, second) = split(self.rules.as_slice(), here);
        match self.search(a, b, first) {
            Some(word) => Some(word),
            None => self.search(a, b, second),
        }
    }
}
