// A tour of the library on one design, a lace edging: rules and prices go in, one of them is refused,
// and plans are looked for within several bounds. Each action is printed with its answer.
#![tactic(auto)]

use anyhow::anyhow;
use design::JudgeFault;
use edging::{CHOICES, HOURS, NEEDLES, RULES};
use judge::{Judge, check_sizes};
use plain::{Plain, Room};
use published::{find_plan, point_of};
use scales::{Hours, Needles};
use std::io;

const BOUNDS: [(u8, u8); 6] = [(255, 255), (40, 19), (11, 9), (10, 9), (6, 24), (5, 24)];

fn show(rt: &HostRuntime, answer: Result<(), JudgeFault>) -> io::Result<()> {
    match answer {
        Ok(()) => println!(rt; ": ok"),
        Err(fault) => {
            let number = fault.number();
            let layer = fault.layer().name();
            println!(rt; ": refused {number} {layer}")
        }
    }
}

fn enter_rules<J: Judge>(rt: &HostRuntime, judge: &mut J) -> io::Result<()> {
    for marks in RULES {
        print!(rt; "rule {marks:?}")?;
        show(rt, judge.rule(marks))?;
    }
    Ok(())
}

fn enter_prices<J: Judge>(rt: &HostRuntime, judge: &mut J) -> io::Result<()> {
    for (mark, place) in HOURS {
        print!(rt; "price A {mark}, {place} quarter hours")?;
        show(rt, judge.price_a(mark, place))?;
    }
    for (mark, place) in NEEDLES {
        print!(rt; "price B {mark}, {place} needles")?;
        show(rt, judge.price_b(mark, place))?;
    }
    Ok(())
}

// A rule on a choice that the design lacks.
fn enter_spoilt<J: Judge>(rt: &HostRuntime, judge: &mut J) -> io::Result<()> {
    print!(rt; "rule [1, 7]")?;
    show(rt, judge.rule(&[1, 7]))
}

fn seek_all<J: Judge>(rt: &HostRuntime, judge: &mut J) -> io::Result<()> {
    for (a, b) in BOUNDS {
        print!(rt; "seek within {a} and {b}: ")?;
        match find_plan(judge, a, b) {
            None => println!(rt; "no plan")?,
            Some(word) => {
                let (hours, needles) = point_of(judge, word);
                println!(rt; "plan {word:016x} costs {hours} and {needles}")?;
                show_choices(rt, word)?;
            }
        }
    }
    Ok(())
}

fn show_choices(rt: &HostRuntime, word: u64) -> io::Result<()> {
    for (at, name) in CHOICES.iter().enumerate() {
        if word >> at & 1 == 1 {
            println!(rt; "  {name}")?;
        }
    }
    Ok(())
}

fn main(rt: HostRuntime) -> anyhow::Result<()> {
    let room = Room::new(rt.alloc())?;
    let sizes = check_sizes(6, 6, 64).map_err(|_| anyhow!("the sizes are out of range"))?;
    println!(rt; "a design of 6 choices")?;
    let mut judge: Plain<Hours, Needles> = Plain::new(room, sizes);
    enter_rules(&rt, &mut judge)?;
    enter_prices(&rt, &mut judge)?;
    enter_spoilt(&rt, &mut judge)?;
    seek_all(&rt, &mut judge)?;
    Ok(())
}
