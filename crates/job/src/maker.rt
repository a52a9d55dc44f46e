ghost use Rattle.std.specs.Prelude.{◌≡◌, ℕ, Option};
ghost use Rattle.design.specs.declared.fault.JudgeFault.{JudgeFault as Fault};
ghost use Rattle.job.specs.Making.{Made};

use design::JudgeFault;
use judge::Judge;

// A judge that was not made: why, and what it was to be made of.
pub struct Unmade<M> {
    pub fault: JudgeFault,
    pub maker: M,
}

// How a program makes its judge: all memory is had, and only the sizes are wanting.
pub trait Maker: Sized {
    type Judge: Judge;

    // The refusal of the sizes N, Q and R, if any.
    ghost refusal: { ℕ → ℕ → ℕ → Option Fault };

    fn make(self, choices: u8, price_room: u8, rule_room: u16) -> Result<Self::Judge, Unmade<Self>>
        ensures { Made Self.Judge.Judge.scales Self.Judge.Judge.meaning (refusal choices price_room rule_room) self choices price_room rule_room result };
}
