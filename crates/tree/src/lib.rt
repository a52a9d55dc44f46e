// The tree: a judge that writes its design as clauses for a solver, any solver, and lets it decide.
// The prices of each cost are joined by a tree of extra choices, and a bound assumes that every
// place of the root above it is false. Its limits are the tops of its scales.
#![tactic(auto)]

ghost use Rattle.std.specs.Prelude.{◌≡◌, ℕ, ◌+◌, ◌-◌, ◌*◌, ◌≤◌, true, refl};
ghost use Rattle.design.specs.Plan.{Sought};
ghost use Rattle.judge.specs.Calls.{no_entries};
ghost use Rattle.solver.specs.State.{cleared};
ghost use Rattle.plain.specs.Held.{pair_of, meaning_of};
ghost use Rattle.plain.specs.declared.state.Plain.{Plain};
ghost use Rattle.totalizer.specs.Encoding.{needed_choices, needed_room, ChoicesSuffice, ClausesFit};
ghost use Rattle.tree.specs.Sizes.{is_large, tree_checked};
ghost use Rattle.finder.specs.Finding.{Large};
ghost use Rattle.tree.specs.Held.{tree_meaning, tree_table, Current, SameSize};

use design::{JudgeFault, SolverFault};
use finder::{decide_within, held_word, write_book};
use judge::{Judge, Sizes, check_sizes};
use plain::{Plain, Room};
use scales::Scale;
use solver::Solver;
use std::marker::Model;

// M, the choices that a tree's solver needs: those of the design, and for each node that joins two
// others one for each place above 0 of both costs. So each node and place has its own choice.
pub fn choices_needed<A: Scale, B: Scale>(sizes: Sizes) -> u16
    ensures needed { result ≡ needed_choices (pair_of A.Scale.places B.Scale.places) sizes.choices sizes.price_room }
    ensures own { ChoicesSuffice (pair_of A.Scale.places B.Scale.places) }
{
    let tops = u16::from(A::TOP) + u16::from(B::TOP);
    u16::from(sizes.choices) + (u16::from(sizes.price_room) - 1) * tops
}

// K, the clause room that it needs: that of the rules, and for each such node four numbers for each
// pair of places of its children. So the clauses of every design of these sizes fit.
pub fn room_needed<A: Scale, B: Scale>(sizes: Sizes) -> usize
    ensures needed { result ≡ needed_room (pair_of A.Scale.places B.Scale.places) sizes.price_room sizes.rule_room }
    ensures fit { ClausesFit (pair_of A.Scale.places B.Scale.places) }
{
    let a = usize::from(A::TOP) + 1;
    let b = usize::from(B::TOP) + 1;
    usize::from(sizes.rule_room) + 4 * (usize::from(sizes.price_room) - 1) * (a * a + b * b - 2)
}

// Whether a solver has the M and K that a tree of these sizes needs.
pub fn is_large_enough<A: Scale, B: Scale, S: Solver>(sizes: Sizes, solver: &S) -> bool
    ensures { result ≡ is_large (pair_of A.Scale.places B.Scale.places) sizes.choices sizes.price_room sizes.rule_room (S.Solver.meaning solver.now) }
{
    let (choices, room) = solver.size();
    choices_needed::<A, B>(sizes) <= choices && room_needed::<A, B>(sizes) <= room
}

// The check before a making: the sizes of a judge, and then that the solver is large enough.
pub fn check_tree<A: Scale, B: Scale, S: Solver>(
    choices: u8,
    price_room: u8,
    rule_room: u16,
    solver: &S,
) -> Result<Sizes, JudgeFault>
    ensures { tree_checked (pair_of A.Scale.places B.Scale.places) choices price_room rule_room (S.Solver.meaning solver.now) result }
{
    let sizes = check_sizes(choices, price_room, rule_room)?;
    if !is_large_enough::<A, B, S>(sizes, solver) {
        return Err(JudgeFault::Solver(SolverFault::TooSmall));
    }
    Ok(sizes)
}

// A judge by clauses. Its book, a plain judge, keeps the rules and prices, refuses what is to be
// refused and tells costs; the solver decides. Where `written`, the solver's clauses are the
// design's, so that seeks that follow each other write nothing.
#[derive(Drop)]
pub struct Tree<A: Scale, B: Scale, S: Solver> {
    book: Plain<A, B>,
    solver: S,
    written: bool,
}

impl<A: Scale, B: Scale, S: Solver> Model for Tree<A, B, S> {
    ghost Value = { Plain A B × S };

    ghost view = { λ t. (t.book, t.solver) };

    ghost invariant = { λ t. t.written ≡ true → Current (pair_of A.Scale.places B.Scale.places) (meaning_of (pair_of A.Scale.places B.Scale.places) t.book) (S.Solver.meaning t.solver) };
}

// Writes the design into a solver that is large enough, where it is not written there already.
fn refresh<A: Scale, B: Scale, S: Solver>(solver: &mut S, book: &Plain<A, B>, written: bool)
    requires large { Large (pair_of A.Scale.places B.Scale.places) (meaning_of (pair_of A.Scale.places B.Scale.places) book.now) (S.Solver.meaning solver.old) }
    requires current { written ≡ true → Current (pair_of A.Scale.places B.Scale.places) (meaning_of (pair_of A.Scale.places B.Scale.places) book.now) (S.Solver.meaning solver.old) }
    ensures current { Current (pair_of A.Scale.places B.Scale.places) (meaning_of (pair_of A.Scale.places B.Scale.places) book.now) (S.Solver.meaning solver.new) }
    ensures size { SameSize (S.Solver.meaning solver.old) (S.Solver.meaning solver.new) }
{
    if !written {
        write_book(solver, book);
    }
}

impl<A: Scale, B: Scale, S: Solver> Tree<A, B, S> {
    // A judge without rules and prices, on a solver that is cleared. The sizes were checked and the
    // memory is there, so the making cannot fail.
    pub fn new(room: Room, sizes: Sizes, mut solver: S) -> Tree<A, B, S>
        ensures meaning { tree_meaning (pair_of A.Scale.places B.Scale.places) result ≡ no_entries sizes.choices sizes.price_room sizes.rule_room A.Scale.places.top B.Scale.places.top }
        ensures solver { S.Solver.meaning result.1 ≡ cleared (S.Solver.meaning solver) }
    {
        solver.clear();
        Tree {
            book: Plain::new(room, sizes),
            solver,
            written: false,
        }
    }

    // The word of a plan within both bounds, by a solver that is large enough, and stays so: nothing
    // that is asked of it is refused.
    pub fn find(&mut self, a: u8, b: u8) -> Option<u64>
        requires { Large (pair_of A.Scale.places B.Scale.places) (tree_meaning (pair_of A.Scale.places B.Scale.places) self.old) (S.Solver.meaning self.old.1) }
        ensures answer { Sought (pair_of A.Scale.places B.Scale.places) (tree_meaning (pair_of A.Scale.places B.Scale.places) self.old) a b result }
        ensures same { self.new.0 ≡ self.old.0 }
        ensures size { SameSize (S.Solver.meaning self.old.1) (S.Solver.meaning self.new.1) }
    {
        refresh(&mut self.solver, &self.book, self.written);
        self.written = true;
        if decide_within(&mut self.solver, &self.book, a, b) {
            Some(held_word(&self.solver, self.book.sizes().choices))
        } else {
            None
        }
    }
}

impl<A: Scale, B: Scale, S: Solver> Judge for Tree<A, B, S> {
    type CostA = A;

    type CostB = B;

    ghost scales = { pair_of A.Scale.places B.Scale.places };

    ghost meaning = { λ t. tree_meaning (pair_of A.Scale.places B.Scale.places) t };

    ghost table = { λ t. tree_table (pair_of A.Scale.places B.Scale.places) t };

    ghost tied = { refl };

    // The clauses of rules come first, and their order decides which plan is found and how fast. So a
    // rule, too, has the design written anew.
    fn rule(&mut self, marks: &[i8]) -> Result<(), JudgeFault> {
        self.book.rule(marks)?;
        self.written = false;
        Ok(())
    }

    // A price changes the shape, so the design is to be written anew.
    fn price_a(&mut self, mark: i8, place: u8) -> Result<(), JudgeFault> {
        self.book.price_a(mark, place)?;
        self.written = false;
        Ok(())
    }

    fn price_b(&mut self, mark: i8, place: u8) -> Result<(), JudgeFault> {
        self.book.price_b(mark, place)?;
        self.written = false;
        Ok(())
    }

    fn seek(&mut self, a: u8, b: u8) -> Option<u64> {
        // Always so where the check of the making was passed. The book searches for any other tree,
        // so that every tree keeps the judge's contract.
        if is_large_enough::<A, B, S>(self.book.sizes(), &self.solver) {
            self.find(a, b)
        } else {
            self.book.seek(a, b)
        }
    }

    fn costs(&self, word: u64) -> (u8, u8) {
        self.book.costs(word)
    }
}
