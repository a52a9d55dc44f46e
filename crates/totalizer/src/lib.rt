// The totalizer: a design's rules and prices as clauses, for every two scales. A heap of nodes joins
// the prices of a cost, and extra choices say of each node that it costs at least a place. What is
// proved of that encoding stands here, once for every scale; the contracts of the finder and the tree
// name it.
#![tactic(auto)]

// What stands for "the node costs at least this place".
#[derive(Clone, Copy)]
pub enum Literal {
    Always,
    Never,
    Mark(i16),
}
