ghost use Rattle.std.specs.Prelude.{◌≡◌, length};
ghost use Rattle.inputs.specs.Reading.{Grown, GrownInA, GrownInB};

use crate::input::Input;
use design::JudgeFault;
use judge::Judge;
use std::io;

// Of a rule with more than eight marks the first eight are entered.
fn enter_rule<J: Judge>(input: &mut Input<'_>, judge: &mut J) -> Result<(), JudgeFault>
    ensures { Grown (J.Judge.meaning judge.old) (J.Judge.meaning judge.new) }
{
    let count = usize::from(input.byte()).min(8);
    let mut marks = [0i8; 8];
    for mark in marks[..count].iter_mut() {
        *mark = input.byte().cast_signed();
    }
    judge.rule(&marks[..count])
}

fn enter_rules<J: Judge>(input: &mut Input<'_>, judge: &mut J) -> Result<(), JudgeFault>
    ensures { Grown (J.Judge.meaning judge.old) (J.Judge.meaning judge.new) }
{
    for _ in 0..input.number() {
        enter_rule(input, judge)?;
    }
    Ok(())
}

fn enter_prices_a<J: Judge>(input: &mut Input<'_>, judge: &mut J) -> Result<(), JudgeFault>
    ensures { GrownInA (J.Judge.meaning judge.old) (J.Judge.meaning judge.new) }
{
    for _ in 0..input.byte() {
        let mark = input.byte().cast_signed();
        judge.price_a(mark, input.byte())?;
    }
    Ok(())
}

fn enter_prices_b<J: Judge>(input: &mut Input<'_>, judge: &mut J) -> Result<(), JudgeFault>
    ensures { GrownInB (J.Judge.meaning judge.old) (J.Judge.meaning judge.new) }
{
    for _ in 0..input.byte() {
        let mark = input.byte().cast_signed();
        judge.price_b(mark, input.byte())?;
    }
    Ok(())
}

// A design: the number of rules in two bytes, and of each the number of its marks and the marks; the
// number of prices in A and of each the mark and the place; the same for B. It ends at the first
// refusal.
pub fn enter<J: Judge>(input: &mut Input<'_>, judge: &mut J) -> Result<(), JudgeFault>
    ensures { Grown (J.Judge.meaning judge.old) (J.Judge.meaning judge.new) }
{
    enter_rules(input, judge)?;
    enter_prices_a(input, judge)?;
    enter_prices_b(input, judge)
}

// The answer to the last of some seeks.
fn seek_often<J: Judge>(judge: &mut J, a: u8, b: u8, times: u8) -> Option<u64>
    ensures { J.Judge.meaning judge.new ≡ J.Judge.meaning judge.old }
{
    let mut answer = None;
    for _ in 0..times {
        answer = judge.seek(a, b);
    }
    answer
}

// To the end of the bytes, the bounds of a seek, and how often it is put. Each is answered by a line:
// the bounds, and the word or "none".
pub fn answer_seeks<J: Judge>(
    rt: &HostRuntime,
    input: &mut Input<'_>,
    judge: &mut J,
) -> io::Result<()>
    ensures { J.Judge.meaning judge.new ≡ J.Judge.meaning judge.old }
{
    while let Some(a) = input.next() {
        let b = input.byte();
        match seek_often(judge, a, b, input.byte()) {
            Some(word) => println!(rt; "{a} {b} {word:016x}")?,
            None => println!(rt; "{a} {b} none")?,
        }
    }
    Ok(())
}
