// A lace edging as a design, for the programs that show the library: its choices, its rules and what
// its marks cost.
#![tactic(auto)]

// What the choices are, by their numbers from 1.
pub const CHOICES: [&str; 6] = [
    "gimp outline",
    "fine outline",
    "picot edge",
    "straight edge",
    "net ground",
    "pillar ground",
];

// One of two outlines, just one of two edges, a ground; and the gimp needs the net.
pub const RULES: [&[i8]; 5] = [&[1, 2], &[3, 4], &[-3, -4], &[5, 6], &[-1, 5]];

// What a mark costs: quarter hours of threading, and needles of shog. Leaving out the pillars, -6,
// shogs the ground bars.
pub const HOURS: [(i8, u8); 6] = [(1, 6), (2, 3), (3, 5), (4, 1), (5, 4), (6, 2)];

pub const NEEDLES: [(i8, u8); 6] = [(1, 9), (2, 20), (3, 6), (4, 2), (5, 4), (-6, 3)];
