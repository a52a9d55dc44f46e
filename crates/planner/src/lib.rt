// The planner: it lists every trade-off that no plan beats, each with a plan, on any judge. Each call
// promises that it carries any run that led to the planner on, lawfully.
#![tactic(auto)]

mod call;
mod entry;
mod halve;
mod runs;
mod search;
mod state;

ghost use Rattle.std.specs.Prelude.{◌≡◌, cond};
ghost use Rattle.planner.specs.Faults.{planner_number, planner_layer};
ghost use Rattle.planner.specs.Order.{last_b};
ghost use Rattle.planner.specs.Runs.{Steps, Extends, state_in, start, ruled, priced_a, priced_b, restarted, read_at};

pub use call::{Call, Outcome, RuleMarks, Turn};
use design::Layer;
pub use entry::{Entry, PlannerFault};
use halve::find_least;
use judge::Judge;
pub use runs::run;
pub use state::{ListRoom, Planner};
use std::alloc::{AllocError, Global};

impl PlannerFault {
    pub fn number(self) -> u8
        ensures { result ≡ planner_number self }
    {
        match self {
            PlannerFault::ListingOpen => 8,
            PlannerFault::NoEntry => 14,
            PlannerFault::Judge(fault) => fault.number(),
        }
    }

    pub fn layer(self) -> Layer
        ensures { result ≡ planner_layer self }
    {
        match self {
            PlannerFault::ListingOpen | PlannerFault::NoEntry => Layer::Planner,
            PlannerFault::Judge(fault) => fault.layer(),
        }
    }
}

impl ListRoom {
    pub fn new(heap: Global) -> Result<ListRoom, AllocError> {
        let entries = Vec::with_capacity(heap, 201)?;
        Ok(ListRoom { entries })
    }
}

impl<J: Judge> Planner<J> {
    // Nothing is listed and no listing is open.
    pub fn new(judge: J, room: ListRoom) -> Planner<J>
        ensures { state_in J.Judge.meaning result ≡ start (J.Judge.meaning judge) }
    {
        let ListRoom { entries } = room;
        Planner {
            judge,
            entries,
            listing: false,
        }
    }

    // A listing that is open refuses rules and prices.
    fn check_shut(&self) -> Result<(), PlannerFault>
        ensures { result ≡ cond self.now.listing (Err PlannerFault.ListingOpen) (Ok tt) }
    {
        if self.listing {
            return Err(PlannerFault::ListingOpen);
        }
        Ok(())
    }

    pub fn rule(&mut self, marks: &[i8]) -> Result<(), PlannerFault>
        ensures run { Extends J.Judge.scales (state_in J.Judge.meaning self.old) (ruled marks.now result) (state_in J.Judge.meaning self.new) }
    {
        self.check_shut()?;
        self.judge.rule(marks)?;
        Ok(())
    }

    pub fn price_a(&mut self, mark: i8, place: u8) -> Result<(), PlannerFault>
        ensures run { Extends J.Judge.scales (state_in J.Judge.meaning self.old) (priced_a mark place result) (state_in J.Judge.meaning self.new) }
    {
        self.check_shut()?;
        self.judge.price_a(mark, place)?;
        Ok(())
    }

    pub fn price_b(&mut self, mark: i8, place: u8) -> Result<(), PlannerFault>
        ensures run { Extends J.Judge.scales (state_in J.Judge.meaning self.old) (priced_b mark place result) (state_in J.Judge.meaning self.new) }
    {
        self.check_shut()?;
        self.judge.price_b(mark, place)?;
        Ok(())
    }

    // The last listed cost B, or 201 where nothing is listed: what is listed next is below it.
    fn next_below(&self) -> u8
        ensures { result ≡ last_b 201 self.now.entries.items }
    {
        self.entries.last().map_or(201, |last| last.b)
    }

    // Lists the next point, if there is one.
    pub fn step(&mut self) -> Option<(u8, u8)>
        ensures run { Steps J.Judge.scales (state_in J.Judge.meaning self.old) result (state_in J.Judge.meaning self.new) }
    {
        let below = self.next_below();
        self.listing = true;
        if below == 0 {
            return None;
        }
        let entry = find_least(&mut self.judge, below - 1)?;
        self.entries.push_reserved(entry);
        Some((entry.a, entry.b))
    }

    // Empties the list and closes the listing.
    pub fn restart(&mut self)
        ensures run { Extends J.Judge.scales (state_in J.Judge.meaning self.old) restarted (state_in J.Judge.meaning self.new) }
    {
        self.entries.clear();
        self.listing = false;
    }

    // The entry at an index from 0.
    pub fn read(&self, index: u8) -> Result<Entry, PlannerFault>
        ensures run { Extends J.Judge.scales (state_in J.Judge.meaning self.now) (read_at index result) (state_in J.Judge.meaning self.now) }
    {
        let entry = self.entries.get(usize::from(index)).copied();
        entry.ok_or(PlannerFault::NoEntry)
    }
}
