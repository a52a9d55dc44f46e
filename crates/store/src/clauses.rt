ghost use Rattle.store.specs.Coding.{Sound, clauses_in};
ghost use Rattle.std.specs.Iterator.{YieldsFirstRef, item_count};

// Goes over clauses that lie one after the other, each as its length and then its marks.
#[derive(Clone, Copy)]
pub struct Clauses<'a> {
    pub cells: &'a [i16],
    ghost sound: { Sound cells.now },
}

impl<'a> Iterator for Clauses<'a> {
    type Item = &'a [i16];

    ghost next_gives = { YieldsFirstRef (λ s. clauses_in s.cells.now) };

    ghost remaining = { item_count (λ s. clauses_in s.cells.now) };

    fn next(&mut self) -> Option<&'a [i16]> {
        let (length, rest) = self.cells.split_first()?;
        let (marks, rest) = rest.split_at(length.unsigned_abs() as usize);
        self.cells = rest;
        Some(marks)
    }
}
