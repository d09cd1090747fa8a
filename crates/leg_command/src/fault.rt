//! Why a leg is not run.

ghost use Rattle.std.specs.Prelude.{◌≡◌};
ghost use Rattle.leg_command.specs.Answers.{as_refusal};

use job_texts::JobFault;
use receipts::ReceiptFault;

/// Why a leg is not run, or not to its end.
#[derive(Drop)]
pub enum LegRefusal {
    /// The job has no such leg.
    Job(JobFault),
    /// What it goes on from is not what the receipt tells of.
    Receipt(ReceiptFault),
}

impl From<JobFault> for LegRefusal {
    ghost use Rattle.leg_command.specs.declared.fault.LegRefusal.TheVariants.{Job};

    ghost from_gives = { λ fault e. e ≡ Job fault };

    fn from(fault: JobFault) -> LegRefusal {
        LegRefusal::Job(fault)
    }
}

/// What comes of a part of the command.
pub(crate) fn after_job(answer: Result<(), JobFault>) -> Result<(), LegRefusal>
    ensures { result ≡ as_refusal answer }
{
    match answer {
        Ok(()) => Ok(()),
        Err(fault) => Err(LegRefusal::Job(fault)),
    }
}
