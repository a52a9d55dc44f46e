use crate::random::Random;
use crate::sweep::{cost, is_setting, meets};
use design::Price;
use judge::Sizes;
use plain::{Plain, Room};
use scales::Scale;
use std::alloc::{AllocError, Global};

// Which of the two costs.
#[derive(Clone, Copy)]
pub enum Cost {
    A,
    B,
}

// A design as the checks keep it: what a judge was given and did not refuse.
#[derive(Drop)]
pub struct Draft {
    pub heap: Global,
    pub sizes: Sizes,
    // Only the highest `span` choices are named by marks, so that a sweep of those is a full one.
    pub(crate) span: u8,
    rules: Vec<Vec<i8>>,
    prices_a: Vec<Price>,
    prices_b: Vec<Price>,
    // The limits of its costs; one at or above the top limits nothing.
    pub limit_a: u8,
    pub limit_b: u8,
}

impl Draft {
    pub fn new(heap: Global, sizes: Sizes, span: u8) -> Draft {
        Draft {
            heap,
            sizes,
            span,
            rules: Vec::new(heap),
            prices_a: Vec::new(heap),
            prices_b: Vec::new(heap),
            limit_a: 255,
            limit_b: 255,
        }
    }

    // The plain judge of its sizes, without rules and prices.
    pub fn plain<A: Scale, B: Scale>(&self) -> Result<Plain<A, B>, AllocError> {
        Ok(Plain::new(Room::new(self.heap)?, self.sizes))
    }

    fn prices(&self, cost: Cost) -> &[Price] {
        match cost {
            Cost::A => self.prices_a.as_slice(),
            Cost::B => self.prices_b.as_slice(),
        }
    }

    // In its own arithmetic, which no judge uses.
    fn has_choice(&self, mark: i8) -> bool {
        let reach = i16::from(self.sizes.choices);
        let at = i16::from(mark);
        at != 0 && at <= reach && at >= reach.wrapping_neg()
    }

    // What the rules take: one unit each, and one more for each mark.
    fn units(&self) -> usize {
        self.rules.iter().fold(
            0,
            |units: usize, rule| units.saturating_add(rule.len()).saturating_add(1),
        )
    }

    // The refusal that a rule is owed, if any: the published number is what the tests hold.
    pub fn rule_refusal(&self, marks: &[i8]) -> Option<u8> {
        if marks.len() > 8 {
            return Some(9);
        }
        if !marks.iter().all(|mark| self.has_choice(*mark)) {
            return Some(10);
        }
        let units = self.units().saturating_add(marks.len()).saturating_add(1);
        (units > usize::from(self.sizes.rule_room)).then_some(13)
    }

    // The same of a price, by the top of its cost's scale.
    pub fn price_refusal(&self, cost: Cost, top: u8, price: Price) -> Option<u8> {
        let prices = self.prices(cost);
        if !self.has_choice(price.mark) {
            return Some(10);
        }
        if price.place == 0 || price.place > top {
            return Some(11);
        }
        if prices.iter().any(|earlier| earlier.mark == price.mark) {
            return Some(12);
        }
        (prices.len() >= usize::from(self.sizes.price_room)).then_some(13)
    }

    pub fn add_rule(&mut self, marks: &[i8]) -> Result<(), AllocError> {
        self.rules.push(marks.to_vec(self.heap)?)?;
        Ok(())
    }

    pub fn add_price(&mut self, cost: Cost, price: Price) -> Result<(), AllocError> {
        match cost {
            Cost::A => self.prices_a.push(price)?,
            Cost::B => self.prices_b.push(price)?,
        }
        Ok(())
    }

    // The word has no bit of a choice above the last, and meets every rule.
    pub fn admits(&self, word: u64) -> bool {
        is_setting(word, self.sizes.choices) && self.rules.iter().all(|rule| meets(word, rule))
    }

    // Both costs of a word, as places.
    pub fn costs<A: Scale, B: Scale>(&self, word: u64) -> (u8, u8) {
        (
            cost::<A>(self.prices_a.as_slice(), word),
            cost::<B>(self.prices_b.as_slice(), word),
        )
    }

    // The word is a setting that meets the rules, with costs within the limits and the bounds.
    pub fn is_plan<A: Scale, B: Scale>(&self, word: u64, a: u8, b: u8) -> bool {
        let (cost_a, cost_b) = self.costs::<A, B>(word);
        self.admits(word) && cost_a <= a.min(self.limit_a) && cost_b <= b.min(self.limit_b)
    }

    // A mark of either sign, of a choice that marks may name.
    pub(crate) fn draw_mark(&self, random: &mut Random) -> i8 {
        random.mark(self.sizes.choices, self.span)
    }

    // A mark that once in n times may be any byte.
    pub fn draw_any_mark(&self, random: &mut Random, n: u8) -> i8 {
        if random.once_in(n) {
            random.below(255).cast_signed()
        } else {
            self.draw_mark(random)
        }
    }

    // A rule of such marks.
    pub fn draw_any_rule(
        &self,
        random: &mut Random,
        n: u8,
        length: u8,
    ) -> Result<Vec<i8>, AllocError> {
        (0..length)
            .map(|_| self.draw_any_mark(random, n))
            .collect(self.heap)
    }
}
