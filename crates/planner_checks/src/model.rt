use checks::draft::Draft;
use checks::sweep::Sweep;
use planner::PlannerFault;
use scales::Scale;
use std::alloc::AllocError;

// How a planner refuses.
#[derive(Clone, Copy, PartialEq, Eq, Debug)]
pub(crate) enum Refusal {
    ListingOpen,
    NoEntry,
    // The judge's refusal: the published number is what the tests hold.
    Judge(u8),
    // A fault that is not of the judge's layer.
    Stray,
}

impl From<PlannerFault> for Refusal {
    fn from(fault: PlannerFault) -> Refusal {
        match fault {
            PlannerFault::ListingOpen => Refusal::ListingOpen,
            PlannerFault::NoEntry => Refusal::NoEntry,
            PlannerFault::Judge(fault) if fault.layer().name() == "judge" => {
                Refusal::Judge(fault.number())
            }
            PlannerFault::Judge(_) => Refusal::Stray,
        }
    }
}

// How often each kind of answer came, so that a test can see that all of them did.
#[derive(Clone, Copy, Default)]
pub(crate) struct Tally {
    pub(crate) accepted: u32,
    pub(crate) refused: u32,
    pub(crate) while_open: u32,
    pub(crate) points: u32,
    pub(crate) ended: u32,
    pub(crate) restarts: u32,
    pub(crate) found: u32,
    pub(crate) missing: u32,
    // The length of the longest list.
    pub(crate) longest: usize,
}

impl Tally {
    fn note_entry(&mut self, owed: Result<(), Refusal>) {
        match owed {
            Ok(()) => self.accepted = self.accepted.saturating_add(1),
            Err(Refusal::ListingOpen) => self.while_open = self.while_open.saturating_add(1),
            Err(_) => self.refused = self.refused.saturating_add(1),
        }
    }
}

// What is known of a planner from outside.
#[derive(Drop)]
pub(crate) struct Model {
    // The rules and prices that were accepted.
    pub(crate) draft: Draft,
    // The points that no plan beats, worked out as a listing opens.
    pub(crate) front: Vec<(u8, u8)>,
    // The points listed so far.
    pub(crate) listed: Vec<(u8, u8)>,
    pub(crate) is_open: bool,
    pub(crate) tally: Tally,
}

impl Model {
    pub(crate) fn new(draft: Draft, tally: Tally) -> Model {
        let heap = draft.heap;
        Model {
            draft,
            front: Vec::new(heap),
            listed: Vec::new(heap),
            is_open: false,
            tally,
        }
    }

    // What a rule or a price is owed that the judge would refuse so, or not.
    pub(crate) fn owed(&mut self, refusal: Option<u8>) -> Result<(), Refusal> {
        let owed = match refusal {
            _ if self.is_open => Err(Refusal::ListingOpen),
            Some(number) => Err(Refusal::Judge(number)),
            None => Ok(()),
        };
        self.tally.note_entry(owed);
        owed
    }

    // The point that a step is owed, or that it ends.
    pub(crate) fn step<A: Scale, B: Scale>(&mut self) -> Result<Option<(u8, u8)>, AllocError> {
        if !self.is_open {
            self.front = Sweep::of::<A, B>(&self.draft)?.front(self.draft.heap)?;
            self.is_open = true;
        }
        let Some(next) = self.front.get(self.listed.len()).copied() else {
            self.tally.ended = self.tally.ended.saturating_add(1);
            return Ok(None);
        };
        self.tally.points = self.tally.points.saturating_add(1);
        self.listed.push(next)?;
        self.tally.longest = self.tally.longest.max(self.listed.len());
        Ok(Some(next))
    }

    pub(crate) fn restart(&mut self) {
        self.listed.clear();
        self.is_open = false;
        self.tally.restarts = self.tally.restarts.saturating_add(1);
    }

    // The point of the entry at an index.
    pub(crate) fn read(&mut self, index: u8) -> Result<(u8, u8), Refusal> {
        let point = self.listed.get(usize::from(index)).copied();
        if point.is_some() {
            self.tally.found = self.tally.found.saturating_add(1);
        } else {
            self.tally.missing = self.tally.missing.saturating_add(1);
        }
        point.ok_or(Refusal::NoEntry)
    }
}
