use crate::model::{Model, Refusal, Tally};
use checks::draft::{Cost, Draft};
use checks::drive::top_of;
use design::Price;
use judge::Judge;
use plain::Plain;
use planner::{ListRoom, Planner};
use scales::Scale;
use std::alloc::AllocError;
use std::process::Abort;
use std::test::Fail;

// A planner and the model of it. Each call is made of both alike, and fails where the two part.
#[derive(Drop)]
pub(crate) struct Watched<J: Judge> {
    pub(crate) planner: Planner<J>,
    pub(crate) model: Model,
}

impl<A: Scale, B: Scale> Watched<Plain<A, B>> {
    // A planner on the plain judge, before any call.
    pub(crate) fn plain(draft: Draft, tally: Tally) -> Result<Watched<Plain<A, B>>, AllocError> {
        Ok(Watched {
            planner: Planner::new(draft.plain()?, ListRoom::new(draft.heap)?),
            model: Model::new(draft, tally),
        })
    }
}

impl<J: Judge> Watched<J> {
    pub(crate) fn enter_rule(&mut self, rt: &impl Abort, marks: &[i8]) -> Result<(), Fail> {
        let refusal = self.model.draft.rule_refusal(marks);
        let owed = self.model.owed(refusal);
        assert_eq!(rt; self.planner.rule(marks).map_err(Refusal::from), owed);
        if owed.is_ok() {
            self.model.draft.add_rule(marks)?;
        }
        Ok(())
    }

    pub(crate) fn enter_price(
        &mut self,
        rt: &impl Abort,
        cost: Cost,
        price: Price,
    ) -> Result<(), Fail> {
        let refusal = self
            .model
            .draft
            .price_refusal(cost, top_of::<J>(cost), price);
        let owed = self.model.owed(refusal);
        let entered = match cost {
            Cost::A => self.planner.price_a(price.mark, price.place),
            Cost::B => self.planner.price_b(price.mark, price.place),
        };
        assert_eq!(rt; entered.map_err(Refusal::from), owed);
        if owed.is_ok() {
            self.model.draft.add_price(cost, price)?;
        }
        Ok(())
    }

    pub(crate) fn enter_rules(&mut self, rt: &impl Abort, rules: &[&[i8]]) -> Result<(), Fail> {
        for marks in rules {
            self.enter_rule(rt, *marks)?;
        }
        Ok(())
    }

    pub(crate) fn enter_prices(
        &mut self,
        rt: &impl Abort,
        cost: Cost,
        prices: &[(i8, u8)],
    ) -> Result<(), Fail> {
        for (mark, place) in prices {
            let (mark, place) = (*mark, *place);
            self.enter_price(rt, cost, Price { mark, place })?;
        }
        Ok(())
    }

    pub(crate) fn step(&mut self, rt: &impl Abort) -> Result<(), Fail> {
        let owed = self.model.step::<J::CostA, J::CostB>()?;
        assert_eq!(rt; self.planner.step(), owed);
        Ok(())
    }

    pub(crate) fn restart(&mut self) {
        self.planner.restart();
        self.model.restart();
    }

    // Reads an entry. Its word is a plan, and costs what is listed.
    pub(crate) fn read(&mut self, rt: &impl Abort, index: u8) {
        let owed = self.model.read(index);
        let found = self.planner.read(index);
        assert_eq!(rt;
            found.map(|entry| (entry.a, entry.b)).map_err(Refusal::from),
            owed
        );
        if let Ok(entry) = found {
            let draft = &self.model.draft;
            assert!(rt; draft.admits(entry.word));
            assert_eq!(rt;
                draft.costs::<J::CostA, J::CostB>(entry.word),
                (entry.a, entry.b)
            );
        }
    }

    pub(crate) fn read_all(&mut self, rt: &impl Abort) {
        for index in 0..=255u8 {
            self.read(rt, index);
        }
    }

    // Steps to the end of the front and twice beyond, and reads at every index.
    pub(crate) fn list_all(&mut self, rt: &impl Abort) -> Result<(), Fail> {
        self.step(rt)?;
        let left = self
            .model
            .front
            .len()
            .saturating_sub(self.model.listed.len());
        for _ in 0..left.saturating_add(2) {
            self.step(rt)?;
        }
        assert_eq!(rt; self.model.listed.len(), self.model.front.len());
        self.read_all(rt);
        Ok(())
    }

    // Lists all, and all once more after a restart.
    pub(crate) fn list_twice(&mut self, rt: &impl Abort) -> Result<(), Fail> {
        self.list_all(rt)?;
        self.restart();
        self.read_all(rt);
        self.list_all(rt)
    }
}
