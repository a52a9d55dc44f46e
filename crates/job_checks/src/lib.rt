// A job against the lines that it should print, for any way to make a judge.
#![tactic(auto)]

ghost use Rattle.std.specs.Prelude.{◌≡◌, OnOk};
ghost use Rattle.job.specs.Lines.{line_text};

use decode::decode;
use job::{JobFault, Line, Maker, Stage, perform};
use planner::ListRoom;
use std::alloc::Global;
use std::test::Fail;

// Whether a line is printed as this text.
pub fn is_line(heap: Global, line: Line, wanted: &str) -> Result<(), Fail>
    ensures { OnOk result (line_text line ≡ wanted.now) }
{
    let text = line.to_string(heap)?;
    if text.as_str() == wanted {
        Ok(())
    } else {
        Err(Fail::new(format_args!("{text} in place of {wanted}")))
    }
}

// Looks at the lines of a job, without the end line.
pub fn prints<M: Maker + Drop>(
    heap: Global,
    maker: M,
    job: &[u8],
    lines: &[&str],
) -> Result<(), Fail>
where
    M::Judge: Drop,
{
    let mut stage = Stage::Waiting(maker, ListRoom::new(heap)?);
    let mut offset = 0;
    for line in lines {
        match decode(job, offset) {
            None => return Err(Fail::new("the job is at its end")),
            Some(Err(spoilt)) => {
                let answer = Err(JobFault::from(spoilt));
                is_line(heap, Line { offset, answer }, line)?;
            }
            Some(Ok((command, next))) => {
                let (now, answer) = perform(stage, command);
                stage = now;
                is_line(heap, Line { offset, answer }, line)?;
                offset = next;
            }
        }
    }
    Ok(())
}
