// Runs a job from standard input on the tree over the settling solver, with hours for cost A and
// needles for cost B. All but the set-up is shared with the program on the plain judge.
#![tactic(auto)]

mod maker;
#[cfg(test)]
mod tests;

use job::run_job;
use maker::TreeMaker;
use plain::Room;
use planner::ListRoom;

fn main(rt: HostRuntime) -> anyhow::Result<()> {
    let mut memory = vec![in rt.alloc(); 0i16; 29696]?;
    let maker = TreeMaker {
        room: Room::new(rt.alloc())?,
        cells: memory.as_mut_slice(),
    };
    let room = ListRoom::new(rt.alloc())?;
    run_job(&rt, maker, room)?;
    Ok(())
}
