// Seeks on a design that comes in bytes, for benchmarks and for tests from outside. On standard
// input: N; the number of rules in two bytes, low byte first, and of each rule the number of its
// marks and the marks; the number of prices in A and of each the mark and the place; the same for B;
// then to the end the bounds of a seek, two bytes, and how often it is put, one byte. Each is answered
// by a line: the bounds, and the word or "none".
#![tactic(auto)]

use inputs::{Input, answer_seeks, enter};
use judge::check_sizes;
use plain::{Plain, Room};
use scales::{Hours, Needles};
use std::io::Read;
use std::process::ExitCode;

// A design that is refused ends with status 1 and prints nothing.
fn main(rt: HostRuntime) -> anyhow::Result<ExitCode> {
    let mut bytes = Vec::new(rt.alloc());
    rt.stdin().read_to_end(&mut bytes)?;
    let mut input = Input { rest: &bytes };
    let room = Room::new(rt.alloc())?;
    let Ok(sizes) = check_sizes(input.byte(), 64, 1024) else {
        return Ok(ExitCode::FAILURE);
    };
    let mut judge: Plain<Hours, Needles> = Plain::new(room, sizes);
    if enter(&mut input, &mut judge).is_err() {
        return Ok(ExitCode::FAILURE);
    }
    answer_seeks(&rt, &mut input, &mut judge)?;
    Ok(ExitCode::SUCCESS)
}
