ghost use Rattle.std.specs.Prelude.{◌≡◌};
ghost use Rattle.planner.specs.declared.entry.PlannerFault.TheVariants.{Judge};

use design::JudgeFault;

// A listed point with the plan that shows it.
#[derive(Clone, Copy, PartialEq, Eq, Debug)]
pub struct Entry {
    pub a: u8,
    pub b: u8,
    pub word: u64,
}

// Why a planner refuses.
#[derive(Clone, Copy, PartialEq, Eq, Debug)]
pub enum PlannerFault {
    // A rule or a price comes while a listing is open.
    ListingOpen,
    // No entry has that index.
    NoEntry,
    // The judge refuses.
    Judge(JudgeFault),
}

impl From<JudgeFault> for PlannerFault {
    ghost from_gives = { λ x y. y ≡ Judge x };

    fn from(fault: JudgeFault) -> PlannerFault {
        PlannerFault::Judge(fault)
    }
}
