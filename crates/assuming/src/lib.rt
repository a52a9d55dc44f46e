// Assumptions as values: before a search every choice is opened, and then each assumption made true.
#![tactic(auto)]

ghost use Rattle.std.specs.Prelude.{◌≡◌, true, length};
ghost use Rattle.design.specs.Mark.{named, all_are_named};
ghost use Rattle.assuming.specs.Assumed.{MakesTrue, MakesAllTrue, Assumed, Prepared};

use values::{place, truth_of, value_for};

// Makes a mark true, where it is not false.
fn assume_one(values: &mut [i16], mark: i16) -> bool
    requires { named (length values.old) mark ≡ true }
    ensures { Assumed (MakesTrue mark) values.old values.new result }
{
    match truth_of(values, mark) {
        Some(truth) => truth,
        None => {
            values[place(mark)] = value_for(mark);
            true
        }
    }
}

// Makes all assumptions true, where none clashes.
fn assume(values: &mut [i16], marks: &[i16]) -> bool
    requires { all_are_named (length values.old) marks.now ≡ true }
    ensures { Assumed (MakesAllTrue marks.now) values.old values.new result }
{
    for mark in marks {
        if !assume_one(values, *mark) {
            return false;
        }
    }
    true
}

// Opens every choice, and then makes the assumptions true.
pub fn prepare(values: &mut [i16], assumptions: &[i16]) -> bool
    requires { all_are_named (length values.old) assumptions.now ≡ true }
    ensures { Prepared assumptions.now values.new result }
{
    values.fill(0);
    assume(values, assumptions)
}
