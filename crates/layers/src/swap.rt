ghost use Rattle.std.specs.Prelude.{◌≡◌};
ghost use Rattle.layers.specs.Meanings.{swapped, swapped_scales, SwapsBack};
ghost use Rattle.layers.specs.Tables.{swapped_table};
ghost use Rattle.std.proofs.Common.{ap};

use design::JudgeFault;
use judge::Judge;

// A judge with the costs A and B exchanged throughout.
#[derive(Drop)]
pub struct Swap<J: Judge> {
    judge: J,
}

impl<J: Judge> Swap<J> {
    pub fn new(judge: J) -> Swap<J>
        ensures { swapped (J.Judge.meaning result.judge) ≡ swapped (J.Judge.meaning judge) }
    {
        Swap { judge }
    }
}

// A judge swapped twice has the meaning that it had.
pub fn swap_twice<J: Judge>(judge: J) -> Swap<Swap<J>>
    ensures same { swapped (swapped (J.Judge.meaning result.judge.judge)) ≡ J.Judge.meaning judge }
    ensures law { SwapsBack }
{
    Swap::new(Swap::new(judge))
}

impl<J: Judge> Judge for Swap<J> {
    type CostA = J::CostB;

    type CostB = J::CostA;

    ghost scales = { swapped_scales J.Judge.scales };

    ghost meaning = { λ s. swapped (J.Judge.meaning s.judge) };

    ghost table = { λ s. swapped_table (J.Judge.meaning s.judge) (J.Judge.table s.judge) };

    ghost tied = { ap swapped_scales J.Judge.tied };

    fn rule(&mut self, marks: &[i8]) -> Result<(), JudgeFault> {
        self.judge.rule(marks)
    }

    fn price_a(&mut self, mark: i8, place: u8) -> Result<(), JudgeFault> {
        self.judge.price_b(mark, place)
    }

    fn price_b(&mut self, mark: i8, place: u8) -> Result<(), JudgeFault> {
        self.judge.price_a(mark, place)
    }

    fn seek(&mut self, a: u8, b: u8) -> Option<u64> {
        self.judge.seek(b, a)
    }

    fn costs(&self, word: u64) -> (u8, u8) {
        let (a, b) = self.judge.costs(word);
        (b, a)
    }
}
