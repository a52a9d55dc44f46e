// A partial setting: the choices that may still be taken, and those that may still be left. A choice
// in both words is open, and one in neither has no value left.
#[derive(Clone, Copy, PartialEq, Eq, Debug)]
pub struct Partial {
    pub up: u64,
    pub down: u64,
}
