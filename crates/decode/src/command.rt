ghost use Rattle.std.specs.Prelude.{◌≡◌, length};
ghost use Rattle.decode.specs.Bytes.{bytes_of};

// One command of a job.
#[derive(Clone, Copy, PartialEq, Eq, Debug)]
pub enum Command {
    // Makes a judge of N choices, with room for Q prices in each cost and R units of rules.
    SetUp {
        choices: u8,
        price_room: u8,
        rule_room: u16,
    },
    // A rule of the first `count` marks; who makes the rule refuses a count above 8.
    Rule {
        count: u8,
        marks: [i8; 8],
    },
    PriceA {
        mark: i8,
        place: u8,
    },
    PriceB {
        mark: i8,
        place: u8,
    },
    Step,
    Restart,
    Read {
        index: u8,
    },
}

impl Command {
    // How many bytes of a job it takes.
    pub(crate) fn size(self) -> usize
        ensures { result ≡ length (bytes_of self) }
    {
        match self {
            Command::SetUp { .. } => 5,
            Command::Rule { .. } => 10,
            Command::PriceA { .. } | Command::PriceB { .. } => 3,
            Command::Step | Command::Restart => 1,
            Command::Read { .. } => 2,
        }
    }
}

// Why no command can be read, in the order in which it is looked for.
#[derive(Clone, Copy, PartialEq, Eq, Debug)]
pub enum Spoilt {
    // No command has this command byte.
    Unknown,
    // The operands run past the job's end.
    CutOff,
}
