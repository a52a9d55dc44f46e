// The samples, proved: what runs of small designs list, in one list with one proof for all.
#![tactic(auto)]

ghost use Rattle.std.specs.Prelude.{◌≡◌, ◌+◌, length};
ghost use Rattle.samples.specs.Designs.{SamplesHold, samples, joins};

// How many samples there are; that each holds is what the contract says.
pub fn samples_hold() -> u8
    ensures count { result ≡ length samples + length joins }
    ensures hold { SamplesHold }
{
    11
}
