use crate::draft::{Cost, Draft};
use crate::drive::{Mismatch, Trial, top_of};
use crate::random::Random;
use crate::sweep::meets;
use design::Price;
use judge::Judge;
use std::alloc::AllocError;

// How many marks a rule has: mostly 2 or 3, rarely none. The planner's tests draw by another table,
// with rules of too many marks.
fn draw_length(random: &mut Random) -> u8 {
    match random.below(200) {
        0 => 0,
        1..=19 => 1,
        20..=99 => 2,
        100..=169 => 3,
        _ => 4,
    }
}

// A rule; sometimes a mark stands in it twice, or beside its opposite.
fn draw_rule(draft: &Draft, random: &mut Random) -> Result<Vec<i8>, AllocError> {
    let mut last = draft.draw_mark(random);
    let length = draw_length(random);
    let marks = (0..length).map(|_| {
        last = match random.below(16) {
            0 => last,
            1 => last.wrapping_neg(),
            _ => draft.draw_mark(random),
        };
        last
    });
    marks.collect(draft.heap)
}

fn draw_price(draft: &Draft, random: &mut Random, top: u8) -> Price {
    Price {
        mark: draft.draw_mark(random),
        place: random.place(top),
    }
}

// Three marks, one of them at least true of a setting.
fn draw_met_rule(draft: &Draft, random: &mut Random, word: u64) -> [i8; 3] {
    let first = draft.draw_mark(random);
    let second = draft.draw_mark(random);
    let third = draft.draw_mark(random);
    if meets(word, &[first, second, third]) {
        [first, second, third]
    } else {
        [first, second.wrapping_neg(), third]
    }
}

impl<J: Judge> Trial<J> {
    fn fill_rules(&mut self, random: &mut Random) -> Result<(), Mismatch> {
        for _ in 0..random.below(13) {
            let marks = draw_rule(&self.draft, random)?;
            self.enter_rule(marks.as_slice())?;
        }
        Ok(())
    }

    fn fill_prices(&mut self, random: &mut Random) -> Result<(), Mismatch> {
        let skipped = random.below(5);
        for k in 0..8u8 {
            let price_a = draw_price(&self.draft, random, top_of::<J>(Cost::A));
            let price_b = draw_price(&self.draft, random, top_of::<J>(Cost::B));
            if k >= skipped {
                self.enter_price(Cost::A, price_a)?;
            }
            if k >= random.below(8) {
                self.enter_price(Cost::B, price_b)?;
            }
        }
        Ok(())
    }

    // Fills an empty judge and its draft alike with random rules and prices, and compares the two.
    pub fn fill_and_compare(&mut self, random: &mut Random) -> Result<(), Mismatch> {
        self.fill_rules(random)?;
        self.fill_prices(random)?;
        self.compare(random)
    }

    fn plant_rules(&mut self, random: &mut Random, word: u64) -> Result<(), Mismatch> {
        for _ in 0..random.below(100) {
            let marks = draw_met_rule(&self.draft, random, word);
            self.enter_rule(&marks)?;
        }
        Ok(())
    }

    // Fills an empty judge and its draft of 64 choices alike around a random plan, and seeks a plan
    // that costs no more than that one does.
    pub fn plant_and_seek(&mut self, random: &mut Random) -> Result<(), Mismatch> {
        let word = random.word();
        self.plant_rules(random, word)?;
        self.fill_prices(random)?;
        self.fill_prices(random)?;
        let (a, b) = self.draft.costs::<J::CostA, J::CostB>(word);
        self.compare_costs(random)?;
        match self.judge.seek(a, b) {
            None => Err(Mismatch::Missed { a, b }),
            Some(found) => self.check_plan(found, a, b),
        }
    }

    fn enter_any_rule(&mut self, random: &mut Random) -> Result<Option<u8>, Mismatch> {
        let length = random.below(11);
        let length = length.max(random.below(4));
        let marks = self.draft.draw_any_rule(random, 16, length)?;
        self.enter_rule(marks.as_slice())
    }

    // Enters a rule or a price that may be refused.
    fn enter_any(&mut self, random: &mut Random) -> Result<Option<u8>, Mismatch> {
        let top = top_of::<J>(Cost::A).max(top_of::<J>(Cost::B));
        let price = Price {
            mark: self.draft.draw_any_mark(random, 16),
            place: random.below(top.saturating_add(3)),
        };
        match random.below(3) {
            0 => self.enter_any_rule(random),
            1 => self.enter_price(Cost::A, price),
            _ => self.enter_price(Cost::B, price),
        }
    }

    // Enters rules and prices of all kinds, and compares the judge with its draft after each refusal.
    pub fn provoke(&mut self, random: &mut Random) -> Result<(), Mismatch> {
        for _ in 0..40u8 {
            if self.enter_any(random)?.is_some() {
                self.compare(random)?;
            }
        }
        Ok(())
    }
}
