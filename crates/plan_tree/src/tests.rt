use crate::maker::TreeMaker;
use plain::Room;
use std::alloc::Global;
use std::test::Fail;

fn prints(heap: Global, job: &[u8], lines: &[&str]) -> Result<(), Fail> {
    let mut memory = vec![in heap; 0i16; 29696]?;
    let maker = TreeMaker {
        room: Room::new(heap)?,
        cells: memory.as_mut_slice(),
    };
    job_checks::prints(heap, maker, job, lines)
}

// Four prices in a cost fit the store at any N and R, and five at none.
#[test]
fn set_ups_meet_the_store(rt: HostRuntime) -> Result<(), Fail> {
    prints(
        rt.alloc(),
        b"\x01\x41\x05\x01\x00\x01\x40\x41\x01\x00\x01\x01\x05\x01\x00\x01\x40\x40\x00\x04\
          \x01\x40\x04\x00\x04\x04\x40\x18\x05",
        &[
            "0 refused 5 judge",
            "5 refused 6 judge",
            "10 refused 7 solver",
            "15 refused 7 solver",
            "20 ok",
            "25 ok",
            "28 point 0 0",
        ],
    )
}

// A rule that comes after a step stands before the prices' clauses, as one before it: the plan that is
// shown hangs on their order.
#[test]
fn a_late_rule_comes_before_prices(rt: HostRuntime) -> Result<(), Fail> {
    prints(
        rt.alloc(),
        b"\x01\x03\x03\x40\x00\x03\xfe\x02\x04\x02\x03\x04\xfd\x01\x05\x06\
          \x02\x02\x01\x03\x00\x00\x00\x00\x00\x00\x05\x05\x07\x00\x07\x01",
        &[
            "0 ok",
            "5 ok",
            "8 ok",
            "11 ok",
            "14 point 0 3",
            "15 ok",
            "16 ok",
            "26 point 0 3",
            "27 point 2 0",
            "28 plan 0 3 0000000000000003",
            "30 plan 2 0 0000000000000005",
        ],
    )
}
