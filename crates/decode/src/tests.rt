use crate::{Command, Spoilt, decode};
use std::process::Abort;

const JOB: &[u8; 35] = b"\x01\x02\x04\x10\x00\
      \x02\x02\x01\x02\x00\x00\x00\x00\x00\x00\
      \x03\x01\x03\x03\x02\x01\x04\x01\x02\x04\x02\x05\
      \x05\x05\x05\x07\x00\x07\x02\x06";

fn reads(rt: &impl Abort, job: &[u8], at: usize, command: Command, next: usize) {
    assert_eq!(rt; decode(job, at), Some(Ok((command, next))));
}

fn refuses(rt: &impl Abort, job: &[u8], why: Spoilt) {
    assert_eq!(rt; decode(job, 0), Some(Err(why)));
}

#[test]
fn reads_rules_and_prices(rt: HostRuntime) {
    reads(
        &rt,
        JOB,
        0,
        Command::SetUp {
            choices: 2,
            price_room: 4,
            rule_room: 16,
        },
        5,
    );
    reads(
        &rt,
        JOB,
        5,
        Command::Rule {
            count: 2,
            marks: [1, 2, 0, 0, 0, 0, 0, 0],
        },
        15,
    );
    reads(&rt, JOB, 15, Command::PriceA { mark: 1, place: 3 }, 18);
    reads(&rt, JOB, 18, Command::PriceA { mark: 2, place: 1 }, 21);
    reads(&rt, JOB, 21, Command::PriceB { mark: 1, place: 2 }, 24);
    reads(&rt, JOB, 24, Command::PriceB { mark: 2, place: 5 }, 27);
}

#[test]
fn reads_steps_to_the_end(rt: HostRuntime) {
    reads(&rt, JOB, 27, Command::Step, 28);
    reads(&rt, JOB, 28, Command::Step, 29);
    reads(&rt, JOB, 29, Command::Step, 30);
    reads(&rt, JOB, 30, Command::Read { index: 0 }, 32);
    reads(&rt, JOB, 32, Command::Read { index: 2 }, 34);
    reads(&rt, JOB, 34, Command::Restart, 35);
    assert_eq!(rt; decode(JOB, 35), None);
    assert_eq!(rt; decode(JOB, usize::MAX), None);
    assert_eq!(rt; decode(&[], 0), None);
}

#[test]
fn reads_both_bytes_and_signs(rt: HostRuntime) {
    reads(
        &rt,
        &[1, 64, 63, 0x34, 0x12],
        0,
        Command::SetUp {
            choices: 64,
            price_room: 63,
            rule_room: 0x1234,
        },
        5,
    );
    reads(
        &rt,
        &[3, 0x80, 255],
        0,
        Command::PriceA {
            mark: -128,
            place: 255,
        },
        3,
    );
    reads(
        &rt,
        &[4, 0xff, 0, 9],
        0,
        Command::PriceB { mark: -1, place: 0 },
        3,
    );
    let marks = [127, -128, -1, 0, 5, -5, 64, -64];
    reads(
        &rt,
        &[2, 255, 127, 128, 255, 0, 5, 251, 64, 192],
        0,
        Command::Rule { count: 255, marks },
        10,
    );
}

#[test]
fn refuses_unknown_bytes(rt: HostRuntime) {
    refuses(&rt, &[0, 1, 1, 1, 1], Spoilt::Unknown);
    refuses(&rt, &[8], Spoilt::Unknown);
    refuses(&rt, &[255], Spoilt::Unknown);
}

#[test]
fn refuses_cut_off_commands(rt: HostRuntime) {
    refuses(&rt, &[1, 2, 4, 16], Spoilt::CutOff);
    refuses(&rt, &[2, 2, 1, 2, 0, 0, 0, 0, 0], Spoilt::CutOff);
    refuses(&rt, &[3, 1], Spoilt::CutOff);
    refuses(&rt, &[4, 1], Spoilt::CutOff);
    refuses(&rt, &[7], Spoilt::CutOff);
}
