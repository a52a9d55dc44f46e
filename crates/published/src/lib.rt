// The planner's meaning in the literature's words. A judge's rules and prices are an instance of
// multi-objective MaxSAT, and a word is an assignment: what the calls here answer is stated by the
// literature's definitions, which stand apart from the design's in specs/Literature.antt.
#![tactic(auto)]

ghost use Rattle.std.specs.Prelude.{◌≡◌, ◌%◌, ◌^◌, Decides};
ghost use Rattle.design.specs.Plan.{Sought, Beats};
ghost use Rattle.published.specs.Literature.{Instance, Assignment, Dominates};
ghost use Rattle.published.specs.Reading.{instance_of, assignment_of, image, ReadsAs, Solved};

use judge::Judge;

// The word of a plan within both bounds: its assignment is feasible. Nothing exactly where no
// assignment at all is feasible within them.
pub fn find_plan<J: Judge>(judge: &mut J, a: u8, b: u8) -> Option<u64>
    ensures answer { Sought J.Judge.scales (J.Judge.meaning judge.old) a b result }
    ensures solved { Solved (instance_of J.Judge.scales (J.Judge.meaning judge.old)) a b result }
    ensures agreed { ReadsAs J.Judge.scales (J.Judge.meaning judge.old) }
    ensures same { J.Judge.meaning judge.new ≡ J.Judge.meaning judge.old }
{
    judge.seek(a, b)
}

// Both objective values of a word's assignment. Bits N and above are ignored.
pub fn point_of<J: Judge>(judge: &J, word: u64) -> (u8, u8)
    ensures { image (instance_of J.Judge.scales (J.Judge.meaning judge.now)) (assignment_of (word % 2 ^ (J.Judge.meaning judge.now).choices)) ≡ result }
{
    judge.costs(word)
}

// Whether one point beats another: then, and only then, an assignment with the first point dominates
// one with the second, whatever the instance.
pub fn beats(p: (u8, u8), q: (u8, u8)) -> bool
    ensures points { Decides result (Beats p q) }
    ensures assignments { (I : Instance) (σ τ : Assignment) → image I σ ≡ p → image I τ ≡ q → Decides result (Dominates I σ τ) }
{
    p.0 <= q.0 && p.1 <= q.1 && (p.0 < q.0 || p.1 < q.1)
}
