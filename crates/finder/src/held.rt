ghost use Rattle.std.specs.Prelude.{◌≡◌, ◌^◌, ◌<◌, ◌≤◌};
ghost use Rattle.totalizer.specs.Encoding.{Agree};

use solver::Solver;

// The word of the first choices of the setting that a solver holds: choice n is bit n - 1.
pub fn held_word<S: Solver>(solver: &S, choices: u8) -> u64
    requires { (choices ≤ 64) × (choices ≤ (S.Solver.meaning solver.now).choices) }
    ensures fits { result < 2 ^ choices }
    ensures same { Agree choices result (S.Solver.meaning solver.now).held }
{
    let mut word: u64 = 0;
    for index in 0..choices {
        if solver.taken(u16::from(index) + 1).unwrap() {
            word |= 1 << index;
        }
    }
    word
}
