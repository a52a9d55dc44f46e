ghost use Rattle.std.specs.Prelude.{◌≡◌, ℕ, ◌<◌, ◌≤◌, IfOk, length, take};
ghost use Rattle.decode.specs.Bytes.{Spells, bytes_of, placed};
ghost use Rattle.decode.specs.Format.{first_command, command_at, Advances};

use crate::command::{Command, Spoilt};

// The command that bytes begin with.
fn read_command(bytes: &[u8]) -> Result<Command, Spoilt>
    ensures says { (at : ℕ) → placed at result ≡ first_command at bytes.now }
    ensures some { IfOk result (λ c. 0 < length (bytes_of c)) }
    ensures within { IfOk result (λ c. length (bytes_of c) ≤ length bytes.now) }
    ensures spells { IfOk result (λ c. take (length (bytes_of c)) bytes.now ≡ bytes_of c) }
{
    match bytes {
        [1, choices, price_room, low, high, ..] => Ok(Command::SetUp {
            choices: *choices,
            price_room: *price_room,
            rule_room: u16::from_le_bytes([*low, *high]),
        }),
        [2, count, a, b, c, d, e, f, g, h, ..] => Ok(Command::Rule {
            count: *count,
            marks: [*a, *b, *c, *d, *e, *f, *g, *h].map(u8::cast_signed),
        }),
        [3, mark, place, ..] => Ok(Command::PriceA {
            mark: mark.cast_signed(),
            place: *place,
        }),
        [4, mark, place, ..] => Ok(Command::PriceB {
            mark: mark.cast_signed(),
            place: *place,
        }),
        [5, ..] => Ok(Command::Step),
        [6, ..] => Ok(Command::Restart),
        [7, index, ..] => Ok(Command::Read { index: *index }),
        [1..=7, ..] => Err(Spoilt::CutOff),
        _ => Err(Spoilt::Unknown),
    }
}

// The command that stands at an offset, with the offset of the next one; nothing at the job's end or past it.
pub fn decode(job: &[u8], at: usize) -> Option<Result<(Command, usize), Spoilt>>
    ensures says { result ≡ command_at job.now at }
    ensures advances { Advances job.now at result }
    ensures spells { Spells job.now at result }
{
    match job.get(at..)? {
        [] => None,
        bytes => Some(read_command(bytes).map(|command| (command, at + command.size()))),
    }
}
