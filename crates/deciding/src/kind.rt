ghost use Rattle.store.specs.Parts.{Stored};

use std::marker::PhantomData;
use store::Store;

// What every kind of solver has: M choices, a clause room of K numbers, and the lent store. S is the
// way in which the kind searches.
#[derive(Drop)]
pub struct Kind<'a, S> {
    pub(crate) store: Store<'a>,
    pub(crate) choices: u16,
    pub(crate) room: usize,
    pub(crate) search: PhantomData<S>,
    ghost stored: { Stored store.cells.now store.used choices room },
}
