ghost use Rattle.std.specs.Prelude.{Some};
ghost use Rattle.job.specs.Lines.{line_text};

use crate::fault::JobFault;
use crate::word::Word;
use planner::Outcome;
use std::fmt;

// A printed line: the offset of a command and its answer.
#[derive(Clone, Copy, PartialEq, Eq, Debug)]
pub struct Line {
    pub offset: usize,
    pub answer: Result<Outcome, JobFault>,
}

impl fmt::Display for Line {
    ghost output = { λ l. Some (line_text l) };

    fn fmt<W: fmt::Write>(&self, f: &mut fmt::Formatter<W>) -> fmt::Result {
        let offset = self.offset;
        match self.answer {
            Ok(Outcome::Done) => write!(f, "{offset} ok"),
            Ok(Outcome::Point(a, b)) => write!(f, "{offset} point {a} {b}"),
            Ok(Outcome::Ended) => write!(f, "{offset} ended"),
            Ok(Outcome::Plan(entry)) => {
                let (a, b, word) = (entry.a, entry.b, Word(entry.word));
                write!(f, "{offset} plan {a} {b} {word}")
            }
            Err(fault) => write!(f, "{offset} {fault}"),
        }
    }
}
