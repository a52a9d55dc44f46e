// Runs a job from standard input on the plain judge, with hours for cost A and needles for cost B.
#![tactic(auto)]

#[cfg(test)]
mod tests;

ghost use Rattle.judge.specs.Calls.{sizes_fault};

use job::{Maker, Unmade, run_job};
use judge::check_sizes;
use plain::{Plain, Room};
use planner::ListRoom;
use scales::{Hours, Needles};

// Makes a plain judge in memory that is there already.
#[derive(Drop)]
struct PlainMaker {
    room: Room,
}

impl Maker for PlainMaker {
    type Judge = Plain<Hours, Needles>;

    ghost refusal = { sizes_fault };

    fn make(
        self,
        choices: u8,
        price_room: u8,
        rule_room: u16,
    ) -> Result<Plain<Hours, Needles>, Unmade<PlainMaker>> {
        match check_sizes(choices, price_room, rule_room) {
            Ok(sizes) => {
                let PlainMaker { room } = self;
                Ok(Plain::new(room, sizes))
            }
            Err(fault) => Err(Unmade { fault, maker: self }),
        }
    }
}

fn main(rt: HostRuntime) -> anyhow::Result<()> {
    let maker = PlainMaker {
        room: Room::new(rt.alloc())?,
    };
    let room = ListRoom::new(rt.alloc())?;
    run_job(&rt, maker, room)?;
    Ok(())
}
