use crate::model::Model;
use crate::turns::Watched;
use checks::draft::{Cost, Draft};
use checks::drive::top_of;
use checks::random::Random;
use design::Price;
use judge::Judge;
use std::process::Abort;
use std::test::Fail;

// How many marks a rule has: mostly 2 or 3, rarely none, or too many. The judges' tests draw by
// another table, where each rule is within its limit.
fn draw_length(random: &mut Random) -> u8 {
    match random.below(200) {
        0 => 0,
        1..=15 => 1,
        16..=99 => 2,
        100..=169 => 3,
        170..=189 => 4,
        _ => random.below(6).saturating_add(5),
    }
}

// A price, mostly of a choice made in cost A and of one not made in cost B, so that the two pull
// apart. Its place is rarely 0 or above the top.
fn draw_price(random: &mut Random, draft: &Draft, cost: Cost, top: u8) -> Price {
    let drawn = draft.draw_any_mark(random, 40);
    let is_fitting = match cost {
        Cost::A => drawn > 0,
        Cost::B => drawn <= 0,
    };
    let mark = if is_fitting || random.once_in(4) {
        drawn
    } else {
        drawn.wrapping_neg()
    };
    let place = match random.below(32) {
        0 => 0,
        1 => top.saturating_add(1),
        _ => random.place(top),
    };
    Price { mark, place }
}

// An index, mostly of the list or next to it.
fn draw_index(random: &mut Random, model: &Model) -> u8 {
    if random.once_in(8) {
        return random.below(255).saturating_add(random.below(2));
    }
    let count = u8::try_from(model.listed.len()).unwrap_or(255);
    random.below(count.saturating_add(2))
}

impl<J: Judge> Watched<J> {
    fn enter_any_rule(&mut self, rt: &impl Abort, random: &mut Random) -> Result<(), Fail> {
        let length = draw_length(random);
        let marks = self.model.draft.draw_any_rule(random, 40, length)?;
        self.enter_rule(rt, marks.as_slice())
    }

    fn enter_any_price(
        &mut self,
        rt: &impl Abort,
        random: &mut Random,
        cost: Cost,
    ) -> Result<(), Fail> {
        let price = draw_price(random, &self.model.draft, cost, top_of::<J>(cost));
        self.enter_price(rt, cost, price)
    }

    // A rule or a price, which the judge may refuse.
    fn enter_any(&mut self, rt: &impl Abort, random: &mut Random) -> Result<(), Fail> {
        match random.below(11) {
            0..=1 => self.enter_any_rule(rt, random),
            2..=5 => self.enter_any_price(rt, random, Cost::A),
            _ => self.enter_any_price(rt, random, Cost::B),
        }
    }

    fn call_any(&mut self, rt: &impl Abort, random: &mut Random) -> Result<(), Fail> {
        match random.below(16) {
            0..=3 => self.enter_any(rt, random)?,
            4..=9 => self.step(rt)?,
            10 => self.restart(),
            _ => {
                let index = draw_index(random, &self.model);
                self.read(rt, index);
            }
        }
        Ok(())
    }

    // Some entries, refused where a listing is open.
    pub(crate) fn enter_some(&mut self, rt: &impl Abort, random: &mut Random) -> Result<(), Fail> {
        for _ in 0..random.below(20) {
            self.enter_any(rt, random)?;
        }
        Ok(())
    }

    // Some calls of all six kinds.
    pub(crate) fn call_some(&mut self, rt: &impl Abort, random: &mut Random) -> Result<(), Fail> {
        for _ in 0..random.below(40) {
            self.call_any(rt, random)?;
        }
        Ok(())
    }
}
