ghost use Rattle.std.specs.Prelude.{◌≡◌, Some};
ghost use Rattle.job.specs.declared.fault.JobFault.TheVariants.{Planner};
ghost use Rattle.job.specs.Faults.{job_number, job_layer, spoilt_fault};
ghost use Rattle.job.specs.Lines.{fault_text};

use decode::Spoilt;
use design::Layer;
use planner::PlannerFault;
use std::fmt;

// Why a command of a job is refused.
#[derive(Clone, Copy, PartialEq, Eq, Debug)]
pub enum JobFault {
    // The job is longer than 16,384 bytes.
    TooLong,
    // A command byte is unknown.
    Unknown,
    // The operands run past the job's end.
    CutOff,
    // A command precedes an accepted set-up, or a set-up follows one.
    Order,
    // The planner, or what stands below it, refuses.
    Planner(PlannerFault),
}

impl From<PlannerFault> for JobFault {
    ghost from_gives = { λ x y. y ≡ Planner x };

    fn from(fault: PlannerFault) -> JobFault {
        JobFault::Planner(fault)
    }
}

impl From<Spoilt> for JobFault {
    ghost from_gives = { λ x y. y ≡ spoilt_fault x };

    fn from(spoilt: Spoilt) -> JobFault {
        match spoilt {
            Spoilt::Unknown => JobFault::Unknown,
            Spoilt::CutOff => JobFault::CutOff,
        }
    }
}

impl JobFault {
    pub fn number(self) -> u8
        ensures { result ≡ job_number self }
    {
        match self {
            JobFault::TooLong => 1,
            JobFault::Unknown => 2,
            JobFault::CutOff => 3,
            JobFault::Order => 4,
            JobFault::Planner(fault) => fault.number(),
        }
    }

    pub fn layer(self) -> Layer
        ensures { result ≡ job_layer self }
    {
        match self {
            JobFault::Planner(fault) => fault.layer(),
            _ => Layer::Job,
        }
    }
}

impl fmt::Display for JobFault {
    ghost output = { λ f. Some (fault_text f) };

    fn fmt<W: fmt::Write>(&self, f: &mut fmt::Formatter<W>) -> fmt::Result {
        let number = self.number();
        let layer = self.layer().name();
        write!(f, "refused {number} {layer}")
    }
}
