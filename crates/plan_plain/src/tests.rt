use crate::PlainMaker;
use job::{Line, check_length};
use plain::Room;
use std::alloc::Global;
use std::test::Fail;

fn prints(heap: Global, job: &[u8], lines: &[&str]) -> Result<(), Fail> {
    let maker = PlainMaker {
        room: Room::new(heap)?,
    };
    job_checks::prints(heap, maker, job, lines)
}

#[test]
fn order_is_kept(rt: HostRuntime) -> Result<(), Fail> {
    prints(
        rt.alloc(),
        b"\x05\x02\x00\x00\x00\x00\x00\x00\x00\x00\x00\x01\x00\x04\x10\x00\x01\x02\x00\x10\x00\
          \x01\x02\x04\x02\x00\x01\x02\x04\x02\x00\x06",
        &[
            "0 refused 4 job",
            "1 refused 4 job",
            "11 refused 5 judge",
            "16 refused 6 judge",
            "21 ok",
            "26 refused 4 job",
            "31 ok",
        ],
    )
}

#[test]
fn entries_are_refused_in_order(rt: HostRuntime) -> Result<(), Fail> {
    prints(
        rt.alloc(),
        b"\x01\x02\x01\x05\x00\
          \x02\x09\x00\x00\x00\x00\x00\x00\x00\x00\
          \x02\x01\x03\x00\x00\x00\x00\x00\x00\x00\
          \x02\x02\x01\x02\x00\x00\x00\x00\x00\x00\
          \x02\x02\x01\x02\x00\x00\x00\x00\x00\x00\
          \x03\x00\x01\x03\x01\x29\x03\x01\x28\x03\x01\x01\x03\x02\x01\x07\x00\x05\
          \x02\x09\x00\x00\x00\x00\x00\x00\x00\x00\x04\x01\x01\x07\x00",
        &[
            "0 ok",
            "5 refused 9 judge",
            "15 refused 10 judge",
            "25 ok",
            "35 refused 13 judge",
            "45 refused 10 judge",
            "48 refused 11 judge",
            "51 ok",
            "54 refused 12 judge",
            "57 refused 13 judge",
            "60 refused 14 planner",
            "62 point 0 0",
            "63 refused 8 planner",
            "73 refused 8 planner",
            "76 plan 0 0 0000000000000002",
        ],
    )
}

#[test]
fn an_unknown_byte_stops_the_job(rt: HostRuntime) -> Result<(), Fail> {
    let heap = rt.alloc();
    prints(heap, b"\x00", &["0 refused 2 job"])?;
    prints(
        heap,
        b"\x01\x02\x04\x10\x00\x08\x05",
        &["0 ok", "5 refused 2 job"],
    )?;
    prints(
        heap,
        b"\x01\x02\x04\x10\x00\xff",
        &["0 ok", "5 refused 2 job"],
    )
}

#[test]
fn operands_that_are_cut_off_stop_the_job(rt: HostRuntime) -> Result<(), Fail> {
    let heap = rt.alloc();
    prints(heap, b"\x01\x02\x04\x10", &["0 refused 3 job"])?;
    prints(
        heap,
        b"\x02\x00\x00\x00\x00\x00\x00\x00\x00",
        &["0 refused 3 job"],
    )?;
    prints(
        heap,
        b"\x06\x03\x01",
        &["0 refused 4 job", "1 refused 3 job"],
    )?;
    prints(heap, b"\x04", &["0 refused 3 job"])?;
    prints(heap, b"\x07", &["0 refused 3 job"])
}

#[test]
fn a_job_is_refused_past_the_limit(rt: HostRuntime) -> Result<(), Fail> {
    assert!(rt; check_length(16384).is_ok());
    match check_length(16385) {
        Ok(()) => Err(Fail::new("taken")),
        Err(fault) => {
            let line = Line {
                offset: 0,
                answer: Err(fault),
            };
            assert_eq!(rt; line.to_string(rt.alloc())?.as_str(), "0 refused 1 job");
            Ok(())
        }
    }
}
