ghost use Rattle.std.specs.Prelude.{◌≡◌};
ghost use Rattle.design.specs.Mark.{named, all_are_named};

// The mark names one of the choices 1 to M.
pub fn is_named(mark: i16, choices: u16) -> bool
    ensures { result ≡ named choices mark }
{
    design::is_named(mark, choices)
}

#[tactic(auto, using(design::proofs::OfMarks::all_by))]
pub fn all_named(marks: &[i16], choices: u16) -> bool
    ensures { result ≡ all_are_named choices marks.now }
{
    design::all_named(marks, choices)
}
