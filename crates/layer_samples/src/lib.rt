// The samples through layers, proved: what runs of a small design list under limits and with its
// costs exchanged.
#![tactic(auto)]

ghost use Rattle.std.specs.Prelude.{◌≡◌, length};
ghost use Rattle.layer_samples.specs.Designs.{LayerSamplesHold, samples_of_layers};

// How many samples there are; that each holds is what the contract says.
pub fn layer_samples_hold() -> u8
    ensures count { result ≡ length samples_of_layers }
    ensures hold { LayerSamplesHold }
{
    3
}
