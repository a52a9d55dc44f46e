use crate::draft::{Cost, Draft};
use crate::random::Random;
use crate::sweep::Sweep;
use design::{JudgeFault, Price};
use judge::{Judge, Sizes};
use plain::Plain;
use scales::Scale;
use std::alloc::{AllocError, AllocFailed, Global};
use std::iter::{self, Chain, Once};
use std::ops::RangeInclusive;

// Where a judge and a draft part.
#[derive(Debug, Drop)]
pub enum Mismatch {
    // An entry is refused otherwise than it should be.
    Refusal {
        owed: Option<u8>,
        given: Option<u8>,
    },
    // A fault that is of another layer.
    Layer,
    // No plan was found where there is one.
    Missed {
        a: u8,
        b: u8,
    },
    // A plan was found where there is none.
    Imagined {
        a: u8,
        b: u8,
        word: u64,
    },
    // What was found breaks a rule or a bound, or is no setting.
    NoPlan {
        a: u8,
        b: u8,
        word: u64,
    },
    // The costs of a word differ from the direct count.
    Costs {
        word: u64,
        direct: (u8, u8),
        told: (u8, u8),
    },
    Memory,
}

impl From<AllocError> for Mismatch {
    fn from(_e: AllocError) -> Mismatch {
        Mismatch::Memory
    }
}

impl<T: Drop> From<AllocFailed<T>> for Mismatch {
    fn from(_e: AllocFailed<T>) -> Mismatch {
        Mismatch::Memory
    }
}

// The number of a refusal, which is of the judge's layer. The number is what is promised to the
// outside; the enum here would be held against itself.
pub fn refusal<T: Drop>(answer: Result<T, JudgeFault>) -> Result<Option<u8>, Mismatch> {
    match answer {
        Ok(_) => Ok(None),
        Err(fault) if fault.layer().name() == "judge" => Ok(Some(fault.number())),
        Err(_) => Err(Mismatch::Layer),
    }
}

// The refusal, where it is the one that is owed.
fn agreed(owed: Option<u8>, given: Option<u8>) -> Result<Option<u8>, Mismatch> {
    if given == owed {
        Ok(given)
    } else {
        Err(Mismatch::Refusal { owed, given })
    }
}

pub fn top_of<J: Judge>(cost: Cost) -> u8 {
    match cost {
        Cost::A => J::CostA::TOP,
        Cost::B => J::CostB::TOP,
    }
}

// The bounds that a cost is tried at: every place, one past the top, and the largest byte.
fn bounds(top: u8) -> Chain<RangeInclusive<u8>, Once<u8>> {
    (0..=top.saturating_add(1)).chain(iter::once(255))
}

// A judge, and the draft of what it was given.
#[derive(Drop)]
pub struct Trial<J> {
    pub judge: J,
    pub draft: Draft,
}

impl<A: Scale, B: Scale> Trial<Plain<A, B>> {
    // The plain judge and its draft, both without rules and prices.
    pub fn plain(heap: Global, sizes: Sizes, span: u8) -> Result<Trial<Plain<A, B>>, AllocError> {
        let draft = Draft::new(heap, sizes, span);
        Ok(Trial::new(draft.plain()?, draft))
    }
}

impl<J: Judge> Trial<J> {
    pub fn new(judge: J, draft: Draft) -> Trial<J> {
        Trial { judge, draft }
    }

    // Enters a rule into the judge and the draft, or has it refused by both alike.
    pub fn enter_rule(&mut self, marks: &[i8]) -> Result<Option<u8>, Mismatch> {
        let owed = self.draft.rule_refusal(marks);
        let given = refusal(self.judge.rule(marks))?;
        if owed.is_none() {
            self.draft.add_rule(marks)?;
        }
        agreed(owed, given)
    }

    // The same of a price.
    pub fn enter_price(&mut self, cost: Cost, price: Price) -> Result<Option<u8>, Mismatch> {
        let owed = self.draft.price_refusal(cost, top_of::<J>(cost), price);
        let answer = match cost {
            Cost::A => self.judge.price_a(price.mark, price.place),
            Cost::B => self.judge.price_b(price.mark, price.place),
        };
        if owed.is_none() {
            self.draft.add_price(cost, price)?;
        }
        agreed(owed, refusal(answer)?)
    }

    // Enters rules, each with the number of the refusal that it is owed, if any.
    pub fn expect_rules(&mut self, steps: &[(&[i8], Option<u8>)]) -> Result<(), Mismatch> {
        for (marks, owed) in steps {
            agreed(*owed, self.enter_rule(*marks)?)?;
        }
        Ok(())
    }

    // The same of prices of a cost.
    pub fn expect_prices(
        &mut self,
        cost: Cost,
        steps: &[(i8, u8, Option<u8>)],
    ) -> Result<(), Mismatch> {
        for (mark, place, owed) in steps {
            let (mark, place) = (*mark, *place);
            agreed(*owed, self.enter_price(cost, Price { mark, place })?)?;
        }
        Ok(())
    }

    // Compares seek with the sweep at every pair of bounds.
    pub fn compare_seeks(&mut self, sweep: &Sweep) -> Result<(), Mismatch> {
        for a in bounds(J::CostA::TOP) {
            self.compare_row(sweep, a)?;
        }
        Ok(())
    }

    fn compare_row(&mut self, sweep: &Sweep, a: u8) -> Result<(), Mismatch> {
        for b in bounds(J::CostB::TOP) {
            self.compare_seek(sweep, a, b)?;
        }
        Ok(())
    }

    pub fn compare_seek(&mut self, sweep: &Sweep, a: u8, b: u8) -> Result<(), Mismatch> {
        match self.judge.seek(a, b) {
            None if sweep.has_plan(a, b) => Err(Mismatch::Missed { a, b }),
            None => Ok(()),
            Some(word) if !sweep.has_plan(a, b) => Err(Mismatch::Imagined { a, b, word }),
            Some(word) => self.check_plan(word, a, b),
        }
    }

    // What was found is a plan within the bounds.
    pub(crate) fn check_plan(&self, word: u64, a: u8, b: u8) -> Result<(), Mismatch> {
        if self.draft.is_plan::<J::CostA, J::CostB>(word, a, b) {
            Ok(())
        } else {
            Err(Mismatch::NoPlan { a, b, word })
        }
    }

    // Compares the costs of some random words, high bits and all, with the direct count.
    pub fn compare_costs(&self, random: &mut Random) -> Result<(), Mismatch> {
        for _ in 0..8u8 {
            let word = random.word();
            let direct = self.draft.costs::<J::CostA, J::CostB>(word);
            let told = self.judge.costs(word);
            if told != direct {
                return Err(Mismatch::Costs { word, direct, told });
            }
        }
        Ok(())
    }

    // Compares the judge with the draft in all that it answers.
    pub fn compare(&mut self, random: &mut Random) -> Result<(), Mismatch> {
        let sweep = Sweep::of::<J::CostA, J::CostB>(&self.draft)?;
        self.compare_seeks(&sweep)?;
        self.compare_costs(random)
    }
}
