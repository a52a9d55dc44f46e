// Rules as bit masks, and what they make of a partial setting: propagation of a rule's last open
// mark, choices that need no trial, and the split of what is left into two halves.
#![tactic(auto)]

mod partial;
mod rule;
mod sides;
mod trial;

ghost use Rattle.std.specs.Prelude.{◌≡◌, ℕ, ◌<◌, ◌≤◌, true, length, Decides};
ghost use Rattle.design.specs.Mark.{all_are_named};
ghost use Rattle.propagation.specs.Held.{marks_of};
ghost use Rattle.propagation.specs.Narrowing.{Applied, Swept, SureMark};
ghost use Rattle.propagation.specs.Easing.{Asked, Eased};

use bits::{highest_bit, without};
pub use partial::Partial;
pub use rule::Rule;
pub use sides::Sides;
pub use trial::split;

impl Rule {
    pub fn new(marks: &[i8]) -> Rule
        requires short { length marks.now ≤ 8 }
        requires named { all_are_named 64 marks.now ≡ true }
        ensures { marks_of result ≡ marks.now }
    {
        let mut held = [0i8; 8];
        let mut sides = Sides::none();
        for (i, mark) in marks.iter().enumerate() {
            held[i] = *mark;
            sides = sides.with(Sides::of(*mark));
        }
        Rule {
            count: marks.len() as u8,
            marks: held,
            sides,
        }
    }

    // The marks as they were entered.
    pub fn entered(&self) -> &[i8]
        ensures marks { result.now ≡ marks_of self.now }
        ensures short { length result.now ≤ 8 }
    {
        &self.marks[..usize::from(self.count)]
    }

    // Whether a mark of the rule is true whatever the open choices are.
    pub fn is_met(&self, at: Partial) -> bool
        ensures { Decides result (SureMark self.now at) }
    {
        without(self.sides.ups, at.down) != 0 || without(self.sides.downs, at.up) != 0
    }

    // The rule's last open mark must be true where the others are false; nothing where none can be.
    pub fn apply(&self, at: Partial) -> Option<Partial>
        ensures { Applied self.now at result }
    {
        let Sides {
            ups: takes,
            downs: leaves,
        } = self.sides.possible(at);
        if takes == 0 {
            if leaves == 0 {
                return None;
            }
            if leaves == highest_bit(leaves) {
                return Some(Partial {
                    up: without(at.up, leaves),
                    down: at.down,
                });
            }
        } else if leaves == 0 && takes == highest_bit(takes) {
            return Some(Partial {
                up: at.up,
                down: without(at.down, takes),
            });
        }
        Some(at)
    }
}

// One sweep over the rules.
pub fn sweep(rules: &[Rule], at: Partial) -> Option<Partial>
    ensures { Swept rules.now at result }
{
    let mut here = at;
    for rule in rules {
        here = rule.apply(here)?;
    }
    Some(here)
}

// The choices that rules which are not surely met would have taken, and left.
fn asked(rules: &[Rule], at: Partial) -> Sides
    ensures { Asked rules.now at result.ups result.downs }
{
    let mut sides = Sides::none();
    for rule in rules {
        if !rule.is_met(at) {
            sides = sides.with(rule.sides);
        }
    }
    sides
}

// Settles each open choice of which one value is asked for by no open rule, and whose other value
// costs nothing. `priced` are the choices that cost something to take, and to leave.
pub fn ease(rules: &[Rule], priced: Sides, at: Partial) -> Partial
    ensures { Eased rules.now priced.ups priced.downs at result }
{
    let open = at.up & at.down;
    let asked = asked(rules, at);
    let leave = without(open, asked.ups | priced.downs);
    let take = without(open, asked.downs | priced.ups | leave);
    Partial {
        up: without(at.up, leave),
        down: without(at.down, take),
    }
}
