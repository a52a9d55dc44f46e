use crate::entry::{Entry, PlannerFault};

// The marks of a rule to be entered: the first `count` of eight. A count above 8 stands for a rule of
// too many marks.
#[derive(Clone, Copy, PartialEq, Eq, Debug)]
pub struct RuleMarks {
    pub count: u8,
    pub marks: [i8; 8],
}

// A call of a planner.
#[derive(Clone, Copy, PartialEq, Eq, Debug)]
pub enum Call {
    Rule(RuleMarks),
    PriceA(i8, u8),
    PriceB(i8, u8),
    Step,
    Restart,
    Read(u8),
}

// What a call answers that is not refused.
#[derive(Clone, Copy, PartialEq, Eq, Debug)]
pub enum Outcome {
    Done,
    Point(u8, u8),
    Ended,
    Plan(Entry),
}

// A call of a run, with room for what it answers.
#[derive(Clone, Copy, PartialEq, Eq, Debug)]
pub struct Turn {
    pub call: Call,
    pub outcome: Result<Outcome, PlannerFault>,
}
