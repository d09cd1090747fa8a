//! The calls that are made.

/// A call that is made, and whose growths of memory are refused.
#[derive(Clone, Copy, Debug, PartialEq, Eq)]
pub(crate) enum Call {
    Fire,
    Add,
    Apply,
    Decode,
    DecodeUnindexed,
    DecodeGroup,
    Encode,
    Check,
    Spread,
    Gather,
    RunLegBy,
    RunLegSaving,
    RunLeg,
    RunLegSealing,
    RunLegsBy,
    RunLegs,
    JobLeg,
    JobLegSealing,
    JobRun,
}

impl Call {
    /// The call that a word names.
    pub(crate) fn from_word(word: &str) -> Option<Call> {
        match word {
            "fire" => Some(Call::Fire),
            "add" => Some(Call::Add),
            "apply" => Some(Call::Apply),
            "decode" => Some(Call::Decode),
            "decode_unindexed" => Some(Call::DecodeUnindexed),
            "decode_group" => Some(Call::DecodeGroup),
            "encode" => Some(Call::Encode),
            "check" => Some(Call::Check),
            "spread" => Some(Call::Spread),
            "gather" => Some(Call::Gather),
            "run_leg_by" => Some(Call::RunLegBy),
            "run_leg_saving" => Some(Call::RunLegSaving),
            "run_leg" => Some(Call::RunLeg),
            "run_leg_sealing" => Some(Call::RunLegSealing),
            "run_legs_by" => Some(Call::RunLegsBy),
            "run_legs" => Some(Call::RunLegs),
            "job_leg" => Some(Call::JobLeg),
            "job_leg_sealing" => Some(Call::JobLegSealing),
            "job_run" => Some(Call::JobRun),
            _ => None,
        }
    }
}
