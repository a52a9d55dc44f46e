ghost use Rattle.std.specs.Prelude.{◌≡◌};
ghost use Rattle.planner.specs.Runs.{Extends, ruled, state_in};
ghost use Rattle.planner.specs.Calls.{Goes, Whole, calls_of, marks_entered};

use crate::call::{Call, Outcome, RuleMarks, Turn};
use crate::entry::PlannerFault;
use crate::state::{ListRoom, Planner};
use judge::Judge;

impl<J: Judge> Planner<J> {
    // A rule by its count and eight marks.
    fn rule_of(&mut self, rule: RuleMarks) -> Result<(), PlannerFault>
        ensures { Extends J.Judge.scales (state_in J.Judge.meaning self.old) (ruled (marks_entered rule) result) (state_in J.Judge.meaning self.new) }
    {
        let marks = rule.marks.get(..usize::from(rule.count));
        self.rule(marks.unwrap_or(&[0; 9]))
    }

    // Any call.
    pub fn call(&mut self, call: Call) -> Result<Outcome, PlannerFault>
        ensures { Goes J.Judge.scales (state_in J.Judge.meaning self.old) call result (state_in J.Judge.meaning self.new) }
    {
        match call {
            Call::Rule(rule) => {
                self.rule_of(rule)?;
                Ok(Outcome::Done)
            }
            Call::PriceA(mark, place) => {
                self.price_a(mark, place)?;
                Ok(Outcome::Done)
            }
            Call::PriceB(mark, place) => {
                self.price_b(mark, place)?;
                Ok(Outcome::Done)
            }
            Call::Step => match self.step() {
                Some((a, b)) => Ok(Outcome::Point(a, b)),
                None => Ok(Outcome::Ended),
            },
            Call::Restart => {
                self.restart();
                Ok(Outcome::Done)
            }
            Call::Read(index) => {
                let entry = self.read(index)?;
                Ok(Outcome::Plan(entry))
            }
        }
    }
}

// A whole run on a planner just made. Each turn has room for its outcome.
pub fn run<J: Judge>(judge: J, room: ListRoom, turns: &mut [Turn]) -> Planner<J>
    ensures law { Whole J.Judge.scales (J.Judge.meaning judge) turns.new (state_in J.Judge.meaning result) }
    ensures calls { calls_of turns.new ≡ calls_of turns.old }
{
    let mut planner = Planner::new(judge, room);
    for turn in turns {
        turn.outcome = planner.call(turn.call);
    }
    planner
}
