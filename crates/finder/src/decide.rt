ghost use Rattle.std.specs.Prelude.{◌≡◌, ℕ, ◌≤◌};
ghost use Rattle.solver.specs.State.{holding};
ghost use Rattle.plain.specs.Held.{pair_of, meaning_of};
ghost use Rattle.totalizer.specs.Encoding.{Written, RootIsCost, PlansExtend, SettingsArePlans};
ghost use Rattle.finder.specs.Finding.{Found};

use crate::book::past_a;
use arrayvec::ArrayVec;
use plain::Plain;
use scales::Scale;
use solver::Solver;
use writer::Heap;

// Whether the design that a solver holds has a plan within the bounds; a yes holds one. It rests on
// this: each plan within the bounds extends to a setting that the solver admits, each setting that
// it admits is such a plan once the extra choices are dropped, and the root's cost is the cost in
// order of entry. The clauses stay, so the next bounds need no writing.
pub fn decide_within<A: Scale, B: Scale, S: Solver>(
    solver: &mut S,
    book: &Plain<A, B>,
    a: u8,
    b: u8,
) -> bool
    requires { Written (pair_of A.Scale.places B.Scale.places) (meaning_of (pair_of A.Scale.places B.Scale.places) book.now) (S.Solver.meaning solver.old) }
    ensures answer { Found (pair_of A.Scale.places B.Scale.places) (meaning_of (pair_of A.Scale.places B.Scale.places) book.now) a b result (S.Solver.meaning solver.new) }
    ensures same { S.Solver.meaning solver.new ≡ holding (S.Solver.meaning solver.old) (S.Solver.meaning solver.new).held }
    ensures extend { PlansExtend (pair_of A.Scale.places B.Scale.places) }
    ensures roots { RootIsCost A.Scale.places × RootIsCost B.Scale.places }
    ensures dropped { SettingsArePlans (pair_of A.Scale.places B.Scale.places) }
{
    // the tops are at most 200, so this holds what both bounds assume
    let mut marks: ArrayVec<i16, 400> = ArrayVec::new();
    let heap_a: Heap<'_, A> = Heap::new(u16::from(book.sizes().choices), book.prices_a());
    heap_a.assume(&mut marks, a);
    let heap_b: Heap<'_, B> = Heap::new(past_a(book), book.prices_b());
    heap_b.assume(&mut marks, b);
    solver.decide(marks.as_slice()).unwrap()
}
