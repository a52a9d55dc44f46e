ghost use Rattle.std.specs.Prelude.{Some};
ghost use Rattle.job.specs.Words.{hex};

use std::fmt;

// A plan's word, which is shown as 16 hexadecimal digits.
#[derive(Clone, Copy)]
pub(crate) struct Word(pub(crate) u64);

impl fmt::Display for Word {
    ghost output = { λ w. Some (hex 16 w.0) };

    fn fmt<W: fmt::Write>(&self, f: &mut fmt::Formatter<W>) -> fmt::Result {
        let word = self.0;
        write!(f, "{word:016x}")
    }
}
