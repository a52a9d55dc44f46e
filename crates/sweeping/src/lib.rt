// Propagation in a partial assignment: sweeps over the clauses that give a value to each clause's last
// open mark, a trail of the marks settled, and the way back along it.
#![tactic(auto)]

mod assignment;

ghost use Rattle.std.specs.Prelude.{◌≡◌, ◌≤◌, true, length};
ghost use Rattle.design.specs.Mark.{all_are_named};
ghost use Rattle.values.specs.Partial.{is_open, state_from};
ghost use Rattle.values.specs.declared.State.TheVariants.{Broken};
ghost use Rattle.sweeping.specs.Trail.{OpenIn, Given, Undone};
ghost use Rattle.sweeping.specs.Sweeps.{note, Visited, Swept, Settled};

pub use assignment::{Assignment, Clash};
use values::{State, place, state_of, value_for};

// The open mark that a sweep notes: the first that asks for its choice to be taken. A clause with an
// open mark that asks for its choice to be left is met where what is open is left.
fn note(open: Option<i16>, mark: i16) -> Option<i16>
    ensures { result ≡ note «open» mark }
{
    open.or((mark >= 0).then_some(mark))
}

impl Assignment<'_> {
    // Gives a mark's open choice a value, and puts the mark on the trail.
    pub fn set(&mut self, mark: i16, value: i16)
        requires opened { OpenIn self.old mark }
        requires valued { is_open value ≡ 0 }
        ensures { Given self.old mark value self.new }
    {
        self.trail[self.top] = mark;
        self.values[place(mark)] = value;
        self.top += 1;
    }

    // Opens the choices of the trail's last marks again.
    pub fn undo(&mut self, base: usize)
        requires { base ≤ self.old.top }
        ensures { Undone self.old base self.new }
    {
        let trail = &mut *self.trail;
        let values = &mut *self.values;
        for at in base..self.top {
            values[place(trail[at])] = 0;
        }
        self.top = base;
    }

    // The state of a clause.
    pub fn look(&self, marks: &[i16]) -> State
        requires { all_are_named (length self.now.values.now) marks.now ≡ true }
        ensures { result ≡ state_from self.now.values.now Broken marks.now }
    {
        state_of(self.values, marks)
    }

    // One clause of a sweep.
    fn visit(&mut self, marks: &[i16], open: Option<i16>) -> Result<Option<i16>, Clash>
        requires { all_are_named (length self.old.values.now) marks.now ≡ true }
        ensures { Visited marks.now self.old «open» self.new result }
    {
        match self.look(marks) {
            State::Met => Ok(open),
            State::Broken => Err(Clash),
            State::Last(mark) => {
                self.set(mark, value_for(mark));
                Ok(open)
            }
            State::Several(mark) => Ok(note(open, mark)),
        }
    }

    // One sweep over the clauses; what it noted counts where it gave no value.
    fn sweep_once(&mut self) -> Result<Option<i16>, Clash>
        ensures { Swept self.old self.new result }
    {
        let mut open = None;
        for marks in self.clauses {
            open = self.visit(marks, open)?;
        }
        Ok(open)
    }

    // Sweeps until nothing more follows, or a clause clashes. What is left is an open mark of the first
    // clause that would not be met with what is open left, if there is one.
    pub fn propagate(&mut self) -> Result<Option<i16>, Clash>
        ensures { Settled self.old self.new result }
    {
        loop {
            let before = self.top;
            let open = self.sweep_once()?;
            if self.top == before {
                return Ok(open);
            }
        }
    }
}
