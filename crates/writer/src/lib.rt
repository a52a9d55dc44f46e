// The writer: the clauses of one cost, written into any solver, and the assumptions of a bound on it.
// Children are written before the nodes that join them, so that one sweep over the clauses carries
// what the prices' marks say up to the root.
#![tactic(auto)]

mod heap;

ghost use Rattle.std.specs.Prelude.{◌≡◌, ◌+◌, ◌-◌, ◌*◌, ◌^◌, ◌<◌, ◌≤◌, [], ◌∷◌, ◌++◌, length};
ghost use Rattle.arrayvec.specs.ArrayVec.{array_vec_len};
ghost use Rattle.solver.specs.State.{with_clauses};
ghost use Rattle.totalizer.specs.Clauses.{number, literal, joins_to, pair, row, grid, tree, assumed};
ghost use Rattle.writer.specs.Writes.{Takes, Small, Inner, Short};

use arrayvec::ArrayVec;
use design::Price;
pub use heap::Heap;
use scales::{Scale, join_places};
use solver::Solver;
use std::marker::PhantomData;
use totalizer::Literal;

// The extra choice "the node costs at least this place", of those past `base`.
pub fn number_of(base: u16, top: u8, node: usize, place: u8) -> u16
    requires { (1 ≤ node) × ((node < 128) × (number base top node place < 2 ^ 15)) }
    ensures { result ≡ number base top node place }
{
    base + (node as u16 - 1) * u16::from(top) + u16::from(place)
}

// What stands for "the node costs at least this place", of prices whose extra choices stand past `base`.
pub fn literal_of(base: u16, top: u8, prices: &[Price], node: usize, place: u8) -> Literal
    requires { (1 ≤ node) × ((node < 2 * length prices.now) × ((place ≤ top) × (Small base top (length prices.now)))) }
    ensures is { result ≡ literal top base prices.now node place }
    ensures short { Short result }
{
    if place == 0 {
        return Literal::Always;
    }
    if node < prices.len() {
        return Literal::Mark(number_of(base, top, node, place) as i16);
    }
    let price = prices[node - prices.len()];
    if place <= price.place {
        Literal::Mark(i16::from(price.mark))
    } else {
        Literal::Never
    }
}

// Appends a clause for which there is room.
pub fn append<S: Solver>(solver: &mut S, marks: &[i16])
    requires short { length marks.now ≤ 8 }
    requires takes { Takes (S.Solver.meaning solver.old) (marks.now ∷ []) }
    ensures { S.Solver.meaning solver.new ≡ with_clauses (S.Solver.meaning solver.old) (marks.now ∷ []) }
{
    solver.clause(marks).unwrap()
}

// If both hold, the choice is taken.
pub fn write_joining<S: Solver>(solver: &mut S, left: Literal, right: Literal, joined: u16)
    requires small { joined < 2 ^ 15 }
    requires marks { (Short left) × (Short right) }
    requires takes { Takes (S.Solver.meaning solver.old) (joins_to left right joined) }
    ensures { S.Solver.meaning solver.new ≡ with_clauses (S.Solver.meaning solver.old) (joins_to left right joined) }
{
    let head = joined as i16;
    match left {
        Literal::Never => {}
        Literal::Always => match right {
            Literal::Never => {}
            Literal::Always => append(solver, &[head]),
            Literal::Mark(v) => append(solver, &[-v, head]),
        },
        Literal::Mark(u) => match right {
            Literal::Never => {}
            Literal::Always => append(solver, &[-u, head]),
            Literal::Mark(v) => append(solver, &[-u, -v, head]),
        },
    }
}

impl<'a, C: Scale> Heap<'a, C> {
    pub fn new(base: u16, prices: &'a [Price]) -> Heap<'a, C>
        requires { Small base C.Scale.places.top (length prices.now) }
        ensures base { result.base ≡ base }
        ensures prices { result.prices.now ≡ prices.now }
    {
        Heap {
            base,
            prices,
            scale: PhantomData,
        }
    }

    // The extra choice "the node costs at least this place".
    pub fn number(&self, node: usize, place: u8) -> u16
        requires { (1 ≤ node) × ((node < 128) × (number self.now.base C.Scale.places.top node place < 2 ^ 15)) }
        ensures is { result ≡ number self.now.base C.Scale.places.top node place }
        ensures small { result < 2 ^ 15 }
    {
        number_of(self.base, C::TOP, node, place)
    }

    // What stands for "the node costs at least this place".
    pub fn literal(&self, node: usize, place: u8) -> Literal
        requires node { (1 ≤ node) × (node < 2 * length self.now.prices.now) }
        requires place { place ≤ C.Scale.places.top }
        ensures is { result ≡ literal C.Scale.places.top self.now.base self.now.prices.now node place }
        ensures short { Short result }
    {
        literal_of(self.base, C::TOP, self.prices, node, place)
    }

    // The clause for two places of a node's children; none for both at 0.
    pub fn write_pair<S: Solver>(&self, solver: &mut S, node: usize, left: u8, right: u8)
        requires inner { Inner (length self.now.prices.now) node }
        requires places { (left ≤ C.Scale.places.top) × (right ≤ C.Scale.places.top) }
        requires takes { Takes (S.Solver.meaning solver.old) (pair C.Scale.places self.now.base self.now.prices.now node left right) }
        ensures { S.Solver.meaning solver.new ≡ with_clauses (S.Solver.meaning solver.old) (pair C.Scale.places self.now.base self.now.prices.now node left right) }
    {
        if left == 0 && right == 0 {
            return;
        }
        let at_left = self.literal(2 * node, left);
        let at_right = self.literal(2 * node + 1, right);
        let joined = self.number(node, join_places::<C>(left, right));
        write_joining(solver, at_left, at_right, joined);
    }

    // The clauses for one place of a node's left child.
    pub fn write_row<S: Solver>(&self, solver: &mut S, node: usize, left: u8)
        requires inner { Inner (length self.now.prices.now) node }
        requires places { left ≤ C.Scale.places.top }
        requires takes { Takes (S.Solver.meaning solver.old) (row C.Scale.places self.now.base self.now.prices.now node left) }
        ensures { S.Solver.meaning solver.new ≡ with_clauses (S.Solver.meaning solver.old) (row C.Scale.places self.now.base self.now.prices.now node left) }
    {
        for right in 0..C::TOP + 1 {
            self.write_pair(solver, node, left, right);
        }
    }

    // The clauses of a node that joins two others.
    pub fn write_node<S: Solver>(&self, solver: &mut S, node: usize)
        requires inner { Inner (length self.now.prices.now) node }
        requires takes { Takes (S.Solver.meaning solver.old) (grid C.Scale.places self.now.base self.now.prices.now node) }
        ensures { S.Solver.meaning solver.new ≡ with_clauses (S.Solver.meaning solver.old) (grid C.Scale.places self.now.base self.now.prices.now node) }
    {
        for left in 0..C::TOP + 1 {
            self.write_row(solver, node, left);
        }
    }

    // All clauses of the cost, from the last node to the root.
    pub fn write<S: Solver>(&self, solver: &mut S)
        requires { Takes (S.Solver.meaning solver.old) (tree C.Scale.places self.now.base self.now.prices.now) }
        ensures { S.Solver.meaning solver.new ≡ with_clauses (S.Solver.meaning solver.old) (tree C.Scale.places self.now.base self.now.prices.now) }
    {
        for done in 1..self.prices.len() {
            self.write_node(solver, self.prices.len() - done);
        }
    }

    // Denies each place of the root above the bound.
    pub fn assume<const CAP: usize>(&self, marks: &mut ArrayVec<i16, CAP>, bound: u8)
        requires { array_vec_len marks.old + (C.Scale.places.top - bound) ≤ CAP }
        ensures items { marks.new.items ≡ marks.old.items ++ assumed C.Scale.places.top self.now.base self.now.prices.now bound }
        ensures few { array_vec_len marks.new ≤ array_vec_len marks.old + (C.Scale.places.top - bound) }
    {
        if self.prices.is_empty() {
            return;
        }
        for above in 0..C::TOP.saturating_sub(bound) {
            if let Literal::Mark(mark) = self.literal(1, bound + 1 + above) {
                marks.push(-mark);
            }
        }
    }
}
