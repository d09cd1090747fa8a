ghost use Rattle.std.specs.Prelude.{◌≡◌};
ghost use Rattle.job_texts.specs.declared.fault.JobFault.TheVariants.{Memory};
ghost use Rattle.job_texts.specs.Fault.{plan_fault, input_fault, scale_fault, save_fault, restore_fault, leg_fault};

use input_texts::InputFault;
use layout_rules::ScaleFault;
use legs::{LegFault, RestoreFault};
use logical_plan::PlanFault;
use savepoint_codec::SaveFault;
use std::alloc::{AllocError, AllocFailed};
use std::fmt;

/// Why a call of the job has no answer. It is printed as its line, which needs no memory.
#[derive(Clone, Copy, Debug, PartialEq, Eq)]
pub enum JobFault {
    /// The plan's text is refused.
    Plan(PlanFault),
    /// The input's text is refused.
    Input(InputFault),
    /// The scale's text is refused.
    Scale(ScaleFault),
    /// The savepoint's bytes are refused.
    Save(SaveFault),
    /// The job cannot go on from the savepoint.
    Restore(RestoreFault),
    /// A leg cannot stop as it is to, or a list of legs is refused.
    Leg(LegFault),
    /// A word of the command line is no cut.
    Cut,
    /// A word of the command line is no number in its range.
    Number,
    /// A file could not be read.
    Read,
    /// What was to be written could not be, and nothing is known of how much was.
    Write,
    /// No memory was to be had.
    Memory,
}

impl fmt::Display for JobFault {
    ghost use Rattle.std.specs.Prelude.{Some};
    ghost use Rattle.job_texts.specs.FaultText.{fault_text};

    ghost output = { λ fault. Some (fault_text fault) };

    fn fmt<W: fmt::Write>(&self, f: &mut fmt::Formatter<W>) -> fmt::Result {
        match self {
            JobFault::Plan(fault) => write!(f, "{fault}"),
            JobFault::Input(fault) => write!(f, "{fault}"),
            JobFault::Scale(fault) => write!(f, "{fault}"),
            JobFault::Save(fault) => write!(f, "{fault}"),
            JobFault::Restore(fault) => write!(f, "{fault}"),
            JobFault::Leg(fault) => write!(f, "{fault}"),
            JobFault::Cut => write!(f, "C1 Cut"),
            JobFault::Number => write!(f, "C2 Number"),
            JobFault::Read => write!(f, "F1 Read"),
            JobFault::Write => write!(f, "F2 Write"),
            JobFault::Memory => write!(f, "memory"),
        }
    }
}

impl From<PlanFault> for JobFault {
    ghost from_gives = { λ fault e. e ≡ plan_fault fault };

    fn from(fault: PlanFault) -> JobFault {
        match fault {
            PlanFault::Memory => JobFault::Memory,
            other => JobFault::Plan(other),
        }
    }
}

impl From<InputFault> for JobFault {
    ghost from_gives = { λ fault e. e ≡ input_fault fault };

    fn from(fault: InputFault) -> JobFault {
        match fault {
            InputFault::Memory => JobFault::Memory,
            other => JobFault::Input(other),
        }
    }
}

impl From<ScaleFault> for JobFault {
    ghost from_gives = { λ fault e. e ≡ scale_fault fault };

    fn from(fault: ScaleFault) -> JobFault {
        match fault {
            ScaleFault::Memory => JobFault::Memory,
            other => JobFault::Scale(other),
        }
    }
}

impl From<SaveFault> for JobFault {
    ghost from_gives = { λ fault e. e ≡ save_fault fault };

    fn from(fault: SaveFault) -> JobFault {
        match fault {
            SaveFault::Memory => JobFault::Memory,
            other => JobFault::Save(other),
        }
    }
}

impl From<RestoreFault> for JobFault {
    ghost from_gives = { λ fault e. e ≡ restore_fault fault };

    fn from(fault: RestoreFault) -> JobFault {
        match fault {
            RestoreFault::Memory => JobFault::Memory,
            other => JobFault::Restore(other),
        }
    }
}

impl From<LegFault> for JobFault {
    ghost from_gives = { λ fault e. e ≡ leg_fault fault };

    fn from(fault: LegFault) -> JobFault {
        match fault {
            LegFault::Memory => JobFault::Memory,
            LegFault::Scale(_, scale) => JobFault::from(scale),
            other => JobFault::Leg(other),
        }
    }
}

impl From<AllocError> for JobFault {
    ghost from_gives = { λ _ e. e ≡ Memory };

    fn from(_e: AllocError) -> JobFault {
        JobFault::Memory
    }
}

impl<T: Drop> From<AllocFailed<T>> for JobFault {
    ghost from_gives = { λ _ e. e ≡ Memory };

    fn from(_e: AllocFailed<T>) -> JobFault {
        JobFault::Memory
    }
}
