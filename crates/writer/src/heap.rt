ghost use Rattle.std.specs.Prelude.{length};
ghost use Rattle.writer.specs.Writes.{Small};

use design::Price;
use scales::Scale;
use std::marker::PhantomData;

// The prices of one cost as a heap of nodes: with q prices, nodes q to 2q - 1 are the prices in order
// of entry, and node i below q joins nodes 2i and 2i + 1. Its extra choices, one for each place of
// each node below q, stand past `base`.
#[derive(Drop)]
pub struct Heap<'a, C: Scale> {
    pub(crate) base: u16,
    pub(crate) prices: &'a [Price],
    pub(crate) scale: PhantomData<C>,
    ghost small: { Small base C.Scale.places.top (length prices.now) },
}
