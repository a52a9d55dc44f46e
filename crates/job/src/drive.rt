ghost use Rattle.std.specs.Prelude.{◌≡◌};
ghost use Rattle.job.specs.Faults.{length_answer};

use crate::commands::perform;
use crate::fault::JobFault;
use crate::line::Line;
use crate::maker::Maker;
use crate::stage::Stage;
use decode::decode;
use planner::ListRoom;
use std::alloc::Global;
use std::io;
use std::io::Read;

// The longest job, in bytes.
const LONGEST: usize = 16384;

// A job that is too long is refused before it is looked at.
pub fn check_length(length: usize) -> Result<(), JobFault>
    ensures { result ≡ length_answer length }
{
    if length > LONGEST {
        Err(JobFault::TooLong)
    } else {
        Ok(())
    }
}

// The bytes of standard input, and no more than one past the longest job, so that what never ends is
// not swallowed.
fn read_job(rt: &HostRuntime, heap: Global) -> io::Result<Vec<u8>> {
    let mut job = Vec::new(heap);
    let mut input = rt.stdin().take(LONGEST as u64 + 1);
    input.read_to_end(&mut job)?;
    Ok(job)
}

// Performs the commands of a job and prints a line for each as it is done.
fn play<M: Maker + Drop>(rt: &HostRuntime, maker: M, room: ListRoom, job: &[u8]) -> io::Result<()>
where
    M::Judge: Drop,
{
    let mut stage = Stage::Waiting(maker, room);
    let mut offset = 0;
    while let Some(found) = decode(job, offset) {
        match found {
            Err(spoilt) => return rt.println(Line {
                offset,
                answer: Err(spoilt.into()),
            }),
            Ok((command, next)) => {
                let (now, answer) = perform(stage, command);
                stage = now;
                rt.println(Line { offset, answer })?;
                offset = next;
            }
        }
    }
    println!(rt; "{offset} end")
}

// Runs the job that comes on standard input.
pub fn run_job<M: Maker + Drop>(rt: &HostRuntime, maker: M, room: ListRoom) -> io::Result<()>
where
    M::Judge: Drop,
{
    let job = read_job(rt, rt.alloc())?;
    match check_length(job.len()) {
        Err(fault) => rt.println(Line {
            offset: 0,
            answer: Err(fault),
        }),
        Ok(()) => play(rt, maker, room, job.as_slice()),
    }
}
