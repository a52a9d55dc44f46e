ghost use Rattle.std.specs.Prelude.{◌≡◌};
ghost use Rattle.design.specs.Fault.{solver_number, solver_layer, judge_number, judge_layer, layer_name};
ghost use Rattle.design.specs.declared.fault.JudgeFault.TheVariants.{Solver as InSolver};

// The part of the planner that found a fault.
#[derive(Clone, Copy, PartialEq, Eq, Debug)]
pub enum Layer {
    Job,
    Planner,
    Judge,
    Solver,
}

// Why a solver refuses, in the order in which it looks.
#[derive(Clone, Copy, PartialEq, Eq, Debug)]
pub enum SolverFault {
    // M is out of range at the making.
    Choices,
    // The store, or the M or K of a solver that a judge stands on, is smaller than needed.
    TooSmall,
    // A clause has more than 8 marks.
    LongClause,
    // A mark, or the number given to taken, is 0 or names a choice beyond M.
    BadMark,
    // K would be exceeded.
    Full,
}

// Why a judge refuses, in the order in which it looks.
#[derive(Clone, Copy, PartialEq, Eq, Debug)]
pub enum JudgeFault {
    // N is out of range at the making.
    Choices,
    // Q or R is out of range at the making.
    Capacity,
    // A rule has more than 8 marks.
    LongRule,
    // A mark is 0 or names a choice beyond N.
    BadMark,
    // A price is below 1 or above the top.
    BadPlace,
    // The mark has a price in this cost.
    PricedTwice,
    // R or Q would be exceeded.
    Full,
    // The solver that the judge stands on refuses.
    Solver(SolverFault),
}

impl From<SolverFault> for JudgeFault {
    ghost from_gives = { λ x y. y ≡ InSolver x };

    fn from(fault: SolverFault) -> JudgeFault {
        JudgeFault::Solver(fault)
    }
}

impl Layer {
    pub fn name(self) -> &'static str
        ensures { result.now ≡ layer_name self }
    {
        match self {
            Layer::Job => "job",
            Layer::Planner => "planner",
            Layer::Judge => "judge",
            Layer::Solver => "solver",
        }
    }
}

impl SolverFault {
    pub fn number(self) -> u8
        ensures { result ≡ solver_number self }
    {
        match self {
            SolverFault::Choices => 5,
            SolverFault::TooSmall => 7,
            SolverFault::LongClause => 9,
            SolverFault::BadMark => 10,
            SolverFault::Full => 13,
        }
    }

    pub fn layer(self) -> Layer
        ensures { result ≡ solver_layer self }
    {
        Layer::Solver
    }
}

impl JudgeFault {
    pub fn number(self) -> u8
        ensures { result ≡ judge_number self }
    {
        match self {
            JudgeFault::Choices => 5,
            JudgeFault::Capacity => 6,
            JudgeFault::LongRule => 9,
            JudgeFault::BadMark => 10,
            JudgeFault::BadPlace => 11,
            JudgeFault::PricedTwice => 12,
            JudgeFault::Full => 13,
            JudgeFault::Solver(fault) => fault.number(),
        }
    }

    pub fn layer(self) -> Layer
        ensures { result ≡ judge_layer self }
    {
        match self {
            JudgeFault::Solver(fault) => fault.layer(),
            _ => Layer::Judge,
        }
    }
}
