ghost use Rattle.std.specs.Prelude.{◌≡◌, ℕ, ◌+◌, ◌-◌, ◌*◌, ◌≤◌, [], ◌∷◌, length};
ghost use Rattle.solver.specs.State.{cleared, with_clauses};
ghost use Rattle.propagation.specs.Held.{rules_of};
ghost use Rattle.plain.specs.Held.{pair_of, meaning_of};
ghost use Rattle.totalizer.specs.Encoding.{clauses};
ghost use Rattle.writer.specs.Writes.{Takes};
ghost use Rattle.finder.specs.Finding.{Large};

use arrayvec::ArrayVec;
use plain::Plain;
use propagation::Rule;
use scales::Scale;
use solver::Solver;
use writer::{Heap, append};

// A rule as a clause.
pub fn write_rule<S: Solver>(solver: &mut S, marks: &[i8])
    requires short { length marks.now ≤ 8 }
    requires takes { Takes (S.Solver.meaning solver.old) (marks.now ∷ []) }
    ensures { S.Solver.meaning solver.new ≡ with_clauses (S.Solver.meaning solver.old) (marks.now ∷ []) }
{
    let mut clause: ArrayVec<i16, 8> = ArrayVec::new();
    for mark in marks {
        clause.push(i16::from(*mark));
    }
    append(solver, clause.as_slice());
}

pub fn write_rules<S: Solver>(solver: &mut S, rules: &[Rule])
    requires { Takes (S.Solver.meaning solver.old) (rules_of rules.now) }
    ensures { S.Solver.meaning solver.new ≡ with_clauses (S.Solver.meaning solver.old) (rules_of rules.now) }
{
    for rule in rules {
        write_rule(solver, rule.entered());
    }
}

// The numbers past which the extra choices of cost B stand: those of cost A come before.
pub fn past_a<A: Scale, B>(book: &Plain<A, B>) -> u16
    ensures { result ≡ book.now.sizes.choices + (book.now.sizes.price_room - 1) * A.Scale.places.top }
{
    let sizes = book.sizes();
    u16::from(sizes.choices) + (u16::from(sizes.price_room) - 1) * u16::from(A::TOP)
}

// The whole design, written anew: its rules, then the tree of A, then that of B.
pub fn write_book<A: Scale, B: Scale, S: Solver>(solver: &mut S, book: &Plain<A, B>)
    requires { Large (pair_of A.Scale.places B.Scale.places) (meaning_of (pair_of A.Scale.places B.Scale.places) book.now) (S.Solver.meaning solver.old) }
    ensures { S.Solver.meaning solver.new ≡ with_clauses (cleared (S.Solver.meaning solver.old)) (clauses (pair_of A.Scale.places B.Scale.places) (meaning_of (pair_of A.Scale.places B.Scale.places) book.now)) }
{
    solver.clear();
    write_rules(solver, book.rules());
    let heap_a: Heap<'_, A> = Heap::new(u16::from(book.sizes().choices), book.prices_a());
    heap_a.write(solver);
    let heap_b: Heap<'_, B> = Heap::new(past_a(book), book.prices_b());
    heap_b.write(solver);
}
