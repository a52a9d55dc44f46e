ghost use Rattle.std.specs.Prelude.{◌≡◌, ◌+◌, ◌<◌, ◌≤◌, length, pos, slice_index_or, unsigned_abs};
ghost use Rattle.store.specs.Coding.{encode};
ghost use Rattle.store.specs.Parts.{part, over};

// The lent numbers, and how many of them clauses take.
#[derive(Drop)]
pub struct Store<'a> {
    pub cells: &'a mut [i16],
    pub used: usize,
}

// Writes a clause's length and its marks at the start of a lent part.
fn write_clause(free: &mut [i16], marks: &[i16])
    requires short { length marks.now ≤ 8 }
    requires fits { length marks.now < length free.old }
    ensures { free.new ≡ over free.old 0 (encode marks.now) }
{
    let n = marks.len();
    free[0] = n as i16;
    free[1..n + 1].copy_from_slice(marks);
}

// Takes the whole store for writing, and lends its free part.
fn append(cells: &mut [i16], used: usize, marks: &[i16])
    requires short { length marks.now ≤ 8 }
    requires fits { used + length marks.now < length cells.old }
    ensures { cells.new ≡ over cells.old used (encode marks.now) }
{
    write_clause(&mut cells[used..], marks);
}

// The marks of the clause that begins at a place.
pub fn marks_at(cells: &[i16], at: usize) -> &[i16]
    requires here { at < length cells.now }
    requires whole { at + 1 + unsigned_abs (slice_index_or cells.now at (pos 0)) ≤ length cells.now }
    ensures { result.now ≡ part cells.now (at + 1) (unsigned_abs (slice_index_or cells.now at (pos 0))) }
{
    let from = at + 1;
    let count = cells[at].unsigned_abs() as usize;
    &cells[from..from + count]
}

impl Store<'_> {
    pub fn put(&mut self, marks: &[i16])
        requires short { length marks.now ≤ 8 }
        requires fits { self.old.used + length marks.now < length self.old.cells.now }
        ensures used { self.new.used ≡ self.old.used + (length marks.now + 1) }
        ensures long { length self.new.cells.now ≡ length self.old.cells.now }
        ensures cells { self.new.cells.now ≡ over self.old.cells.now self.old.used (encode marks.now) }
    {
        let used = self.used;
        append(self.cells, used, marks);
        self.used = used + (marks.len() + 1);
    }
}
