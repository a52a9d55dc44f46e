// The plain judge: it searches settings itself, and drops a part as soon as a rule is broken or a
// cost is past its bound. Its limits are the tops of its scales.
#![tactic(auto)]

mod search;
mod state;

ghost use Rattle.std.specs.Prelude.{◌≡◌, ℕ, ◌≤◌, refl};
ghost use Rattle.judge.specs.Calls.{no_entries};
ghost use Rattle.plain.specs.Held.{pair_of, meaning_of};
ghost use Rattle.plain.specs.Kept.{table_of};

use bits::lowest;
use design::{JudgeFault, Price};
use judge::{Judge, Sizes, check_rule};
use pricing::PriceTable;
use propagation::{Partial, Rule};
use scales::Scale;
pub use state::{Plain, Room};
use std::alloc::{AllocError, Global};

impl Room {
    // Memory for the largest judge: 1,024 rules and 64 prices in each cost.
    pub fn new(heap: Global) -> Result<Room, AllocError> {
        let rules = Vec::with_capacity(heap, 1024)?;
        let prices_a = Vec::with_capacity(heap, 64)?;
        let prices_b = Vec::with_capacity(heap, 64)?;
        Ok(Room {
            rules,
            prices_a,
            prices_b,
        })
    }
}

impl<A: Scale, B: Scale> Plain<A, B> {
    // A judge without rules and prices. The sizes were checked and the memory is there, so the
    // making cannot fail.
    pub fn new(room: Room, sizes: Sizes) -> Plain<A, B>
        ensures { meaning_of (pair_of A.Scale.places B.Scale.places) result ≡ no_entries sizes.choices sizes.price_room sizes.rule_room A.Scale.places.top B.Scale.places.top }
    {
        let Room {
            rules,
            prices_a,
            prices_b,
        } = room;
        Plain {
            sizes,
            rules,
            used: 0,
            prices_a: PriceTable::new(sizes, prices_a),
            prices_b: PriceTable::new(sizes, prices_b),
        }
    }
}

// What it keeps, as it was entered.
impl<A, B> Plain<A, B> {
    pub fn sizes(&self) -> Sizes
        ensures { result ≡ self.now.sizes }
    {
        self.sizes
    }

    pub fn rules(&self) -> &[Rule]
        ensures { result.now ≡ self.now.rules.items }
    {
        self.rules.as_slice()
    }

    pub fn prices_a(&self) -> &[Price]
        ensures { result.now ≡ self.now.prices_a.list.entries.items }
    {
        self.prices_a.as_slice()
    }

    pub fn prices_b(&self) -> &[Price]
        ensures { result.now ≡ self.now.prices_b.list.entries.items }
    {
        self.prices_b.as_slice()
    }
}

impl<A: Scale, B: Scale> Judge for Plain<A, B> {
    type CostA = A;

    type CostB = B;

    ghost scales = { pair_of A.Scale.places B.Scale.places };

    ghost meaning = { λ j. meaning_of (pair_of A.Scale.places B.Scale.places) j };

    ghost table = { λ j. table_of (pair_of A.Scale.places B.Scale.places) j };

    ghost tied = { refl };

    fn rule(&mut self, marks: &[i8]) -> Result<(), JudgeFault> {
        check_rule(self.sizes, self.used, marks)?;
        self.rules.push_reserved(Rule::new(marks));
        self.used += marks.len() as u16 + 1;
        Ok(())
    }

    fn price_a(&mut self, mark: i8, place: u8) -> Result<(), JudgeFault> {
        self.prices_a.check(mark, place)?;
        self.prices_a.append(mark, place);
        Ok(())
    }

    fn price_b(&mut self, mark: i8, place: u8) -> Result<(), JudgeFault> {
        self.prices_b.check(mark, place)?;
        self.prices_b.append(mark, place);
        Ok(())
    }

    fn seek(&mut self, a: u8, b: u8) -> Option<u64> {
        let at = Partial {
            up: lowest(self.sizes.choices),
            down: u64::MAX,
        };
        self.search(a, b, at)
    }

    fn costs(&self, word: u64) -> (u8, u8) {
        let setting = word & lowest(self.sizes.choices);
        (self.prices_a.cost(setting), self.prices_b.cost(setting))
    }
}
