ghost use Rattle.std.specs.Prelude.{◌≡◌, min};
ghost use Rattle.layers.specs.Meanings.{lowered};
ghost use Rattle.layers.specs.Tables.{lowered_table};

use design::JudgeFault;
use judge::Judge;

// A judge with a limit in each cost: only plans that cost at most that are plans of it. A limit
// above the one below lowers nothing.
#[derive(Drop)]
pub struct Limit<J: Judge> {
    judge: J,
    limit_a: u8,
    limit_b: u8,
}

// A bound lowered to a limit where that is smaller.
fn lower(bound: u8, limit: u8) -> u8
    ensures { result ≡ min bound limit }
{
    bound.min(limit)
}

impl<J: Judge> Limit<J> {
    pub fn new(judge: J, limit_a: u8, limit_b: u8) -> Limit<J>
        ensures { lowered result.limit_a result.limit_b (J.Judge.meaning result.judge) ≡ lowered limit_a limit_b (J.Judge.meaning judge) }
    {
        Limit {
            judge,
            limit_a,
            limit_b,
        }
    }
}

impl<J: Judge> Judge for Limit<J> {
    type CostA = J::CostA;

    type CostB = J::CostB;

    ghost scales = { J.Judge.scales };

    ghost meaning = { λ s. lowered s.limit_a s.limit_b (J.Judge.meaning s.judge) };

    ghost table = { λ s. lowered_table s.limit_a s.limit_b (J.Judge.meaning s.judge) (J.Judge.table s.judge) };

    ghost tied = { J.Judge.tied };

    fn rule(&mut self, marks: &[i8]) -> Result<(), JudgeFault> {
        self.judge.rule(marks)
    }

    fn price_a(&mut self, mark: i8, place: u8) -> Result<(), JudgeFault> {
        self.judge.price_a(mark, place)
    }

    fn price_b(&mut self, mark: i8, place: u8) -> Result<(), JudgeFault> {
        self.judge.price_b(mark, place)
    }

    // The bounds are lowered like the limits.
    fn seek(&mut self, a: u8, b: u8) -> Option<u64> {
        let within_a = lower(a, self.limit_a);
        let within_b = lower(b, self.limit_b);
        self.judge.seek(within_a, within_b)
    }

    fn costs(&self, word: u64) -> (u8, u8) {
        self.judge.costs(word)
    }
}
