use crate::model::Refusal;
use checks::draft::Draft;
use judge::check_sizes;
use plain::Plain;
use planner::{Call, Entry, ListRoom, Outcome, RuleMarks, Turn, run};
use scales::{Hours, Needles};
use std::alloc::{AllocError, Global};
use std::process::Abort;
use std::test::Fail;

// What a turn is to be answered.
type Told = Result<Outcome, Refusal>;

fn planned(a: u8, b: u8, word: u64) -> Told {
    Ok(Outcome::Plan(Entry { a, b, word }))
}

fn rule_of(count: u8, first: i8, second: i8) -> Call {
    Call::Rule(RuleMarks {
        count,
        marks: [first, second, 0, 0, 0, 0, 0, 0],
    })
}

fn turns_of(heap: Global, script: &[(Call, Told)]) -> Result<Vec<Turn>, AllocError> {
    let turns = script.iter().map(|(call, _)| Turn {
        call: *call,
        outcome: Ok(Outcome::Done),
    });
    turns.collect(heap)
}

fn compare_turns(rt: &impl Abort, turns: &[Turn], script: &[(Call, Told)]) {
    assert_eq!(rt; turns.len(), script.len());
    for (turn, (_, told)) in turns.iter().zip(script) {
        assert_eq!(rt; turn.outcome.map_err(Refusal::from), *told);
    }
}

// Plays a script on a planner of two choices.
fn play(rt: &impl Abort, heap: Global, script: &[(Call, Told)]) -> Result<(), Fail> {
    let draft = Draft::new(heap, check_sizes(2, 64, 1024)?, 2);
    let judge: Plain<Hours, Needles> = draft.plain()?;
    let mut turns = turns_of(heap, script)?;
    let planner = run(judge, ListRoom::new(heap)?, turns.as_mut_slice());
    compare_turns(rt, turns.as_slice(), script);
    assert!(rt; planner.read(0).is_ok());
    assert!(rt; planner.read(1).is_err());
    Ok(())
}

#[test]
fn a_whole_run_is_answered(rt: HostRuntime) -> Result<(), Fail> {
    let accepted = Ok(Outcome::Done);
    let while_open = Err(Refusal::ListingOpen);
    let missing = Err(Refusal::NoEntry);
    play(
        &rt,
        rt.alloc(),
        &[
            (rule_of(9, 1, 2), Err(Refusal::Judge(9))),
            (rule_of(2, 1, 2), accepted),
            (rule_of(1, 3, 0), Err(Refusal::Judge(10))),
            (Call::PriceA(1, 3), accepted),
            (Call::PriceA(1, 2), Err(Refusal::Judge(12))),
            (Call::PriceA(2, 1), accepted),
            (Call::PriceB(1, 2), accepted),
            (Call::PriceB(2, 5), accepted),
            (Call::PriceB(-2, 0), Err(Refusal::Judge(11))),
            (Call::Read(0), missing),
            (Call::Step, Ok(Outcome::Point(1, 5))),
            (rule_of(0, 0, 0), while_open),
            (Call::PriceA(-1, 1), while_open),
            (Call::PriceB(-1, 1), while_open),
            (Call::Read(0), planned(1, 5, 0b10)),
            (Call::Read(1), missing),
            (Call::Step, Ok(Outcome::Point(3, 2))),
            (Call::Read(1), planned(3, 2, 0b01)),
            (Call::Step, Ok(Outcome::Ended)),
            (Call::Read(2), missing),
            (Call::Restart, accepted),
            (Call::Read(0), missing),
            (Call::Step, Ok(Outcome::Point(1, 5))),
        ],
    )
}
