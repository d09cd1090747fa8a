//! What the files of a leg hold.

ghost use Rattle.std.specs.Prelude.{◌≡◌, ◌⊎◌, is_some, IfErr, IfOk};

use crate::words::LegWords;
use command_files::{file, optional_file};
use job_texts::JobFault;
use std::rt::Files;

/// What the files of a leg hold that stays as it goes on.
#[derive(Drop)]
pub(crate) struct LegTexts {
    pub(crate) plan: Vec<u8>,
    pub(crate) scale: Vec<u8>,
    pub(crate) since: Option<Vec<u8>>,
    pub(crate) names: Option<Vec<u8>>,
}

/// The bytes of a leg's input and of the savepoint that it begins at: large ones, each let go once it is read.
#[derive(Drop)]
pub(crate) struct LegBytes {
    pub(crate) input: Vec<u8>,
    pub(crate) from: Option<Vec<u8>>,
}

/// What the files of a leg hold.
///
/// # Errors
///
/// `Read` where one of them cannot be read; `Memory`.
pub(crate) fn read_texts<R: Files + AllocGlobal>(
    rt: &R,
    words: &LegWords<'_>,
) -> Result<(LegTexts, LegBytes), JobFault>
    ensures from { IfOk result (λ read. is_some read.1.from ≡ is_some words.now.from) }
    ensures since { IfOk result (λ read. is_some read.0.since ≡ is_some words.now.since) }
    ensures names { IfOk result (λ read. is_some read.0.names ≡ is_some words.now.names) }
    ensures err { IfErr result (λ fault. (fault ≡ JobFault.Read) ⊎ (fault ≡ JobFault.Memory)) }
{
    let plan = file(rt, words.plan)?;
    let input = file(rt, words.input)?;
    let scale = file(rt, words.scale)?;
    let from = optional_file(rt, words.from)?;
    let since = optional_file(rt, words.since)?;
    let names = optional_file(rt, words.names)?;
    let texts = LegTexts {
        plan,
        scale,
        since,
        names,
    };
    Ok((texts, LegBytes { input, from }))
}
