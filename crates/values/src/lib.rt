// Values of some of the choices: what they say of a mark and of a clause. A value above 0 says that
// its choice is taken, one below 0 that it is left, and 0 that it is open.
#![tactic(auto)]

ghost use Rattle.std.specs.Prelude.{◌≡◌, true, length};
ghost use Rattle.design.specs.Mark.{named, all_are_named, bit_of};
ghost use Rattle.values.specs.Partial.{said, truth_in, value_that_holds, value_that_fails, first_left, with_open, state_from};
ghost use Rattle.values.specs.declared.State.TheVariants.{Broken};

// What values say of a clause.
#[derive(Clone, Copy, PartialEq, Eq, Debug)]
pub enum State {
    // A mark is true.
    Met,
    // Every mark is false.
    Broken,
    // This mark is open, and the others are false.
    Last(i16),
    // No mark is true, and more than one is open, as this one; it is below 0 where any of them is, so
    // that the clause is met where what is open is left.
    Several(i16),
}

// The place of a mark's choice among the values.
pub fn place(mark: i16) -> usize
    ensures { result ≡ bit_of mark }
{
    usize::from(mark.unsigned_abs().saturating_sub(1))
}

// The value that makes a mark true.
pub fn value_for(mark: i16) -> i16
    ensures { result ≡ value_that_holds mark }
{
    if mark >= 0 { 1 } else { -1 }
}

// The value that makes a mark false.
pub fn value_against(mark: i16) -> i16
    ensures { result ≡ value_that_fails mark }
{
    -value_for(mark)
}

// Whether a mark is true by its choice's value, unless the choice is open.
fn truth_by(mark: i16, value: i16) -> Option<bool>
    ensures { result ≡ said mark value }
{
    (value != 0).then_some((value > 0) == (mark >= 0))
}

pub fn truth_of(values: &[i16], mark: i16) -> Option<bool>
    requires { named (length values.now) mark ≡ true }
    ensures { result ≡ truth_in values.now mark }
{
    truth_by(mark, values[place(mark)])
}

// Of two marks the first that is met where its choice is left, if one is, and else the first.
fn left_first(one: i16, other: i16) -> i16
    ensures { result ≡ first_left one other }
{
    if one >= 0 && other < 0 { other } else { one }
}

// The state of a clause with one more mark, which is open.
fn with_open(state: State, mark: i16) -> State
    ensures { result ≡ with_open state mark }
{
    match state {
        State::Met => State::Met,
        State::Broken => State::Last(mark),
        State::Last(other) => State::Several(left_first(other, mark)),
        State::Several(other) => State::Several(left_first(other, mark)),
    }
}

// The state of a clause. The look ends at the first true mark.
pub fn state_of(values: &[i16], marks: &[i16]) -> State
    requires { all_are_named (length values.now) marks.now ≡ true }
    ensures { result ≡ state_from values.now Broken marks.now }
{
    let mut state = State::Broken;
    let mut left = marks;
    loop {
        match left {
            [] => return state,
            [first, rest @ ..] => {
                match truth_of(values, *first) {
                    Some(true) => return State::Met,
                    Some(false) => {}
                    None => state = with_open(state, *first),
                }
                left = rest;
            }
        }
    }
}
