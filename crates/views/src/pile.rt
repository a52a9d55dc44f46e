ghost use Rattle.std.specs.Prelude.{◌≡◌};
ghost use Rattle.layers.specs.Meanings.{lowered, swapped, swapped_scales};
ghost use Rattle.planner.specs.Runs.{state_in};
ghost use Rattle.planner.specs.Calls.{Whole, calls_of};
ghost use Rattle.views.specs.Piles.{piled};

use judge::Judge;
use layers::{Limit, Swap};
use planner::{ListRoom, Planner, Turn, run};

// A whole run on a pile of three layers. The law over runs holds there as on any judge.
pub fn run_pile<J: Judge>(
    judge: J,
    below: (u8, u8),
    above: (u8, u8),
    room: ListRoom,
    turns: &mut [Turn],
) -> Planner<Limit<Swap<Limit<J>>>>
    ensures law { Whole (swapped_scales J.Judge.scales) (piled below above (J.Judge.meaning judge)) turns.new (state_in (λ k. lowered k.limit_a k.limit_b (swapped (lowered k.judge.judge.limit_a k.judge.judge.limit_b (J.Judge.meaning k.judge.judge.judge)))) result) }
    ensures calls { calls_of turns.new ≡ calls_of turns.old }
{
    let limited = Limit::new(judge, below.0, below.1);
    run(
        Limit::new(Swap::new(limited), above.0, above.1),
        room,
        turns,
    )
}
