//! How a leg is to stop.

ghost use Rattle.leg_command.specs.Answers.{IsStop};

use crate::words::LegWords;
use job_texts::JobFault;

/// How a leg is to stop.
#[derive(Clone, Copy)]
pub(crate) enum LegStop<'a> {
    /// At the cut of the second word, or never, with savepoints on its way at the cuts of the first, if there are any.
    At(Option<&'a str>, Option<&'a str>),
    /// Where it is once a file is there.
    Once(&'a str),
}

/// How words say that a leg is to stop.
///
/// # Errors
///
/// `Cut` where a file is to stop the leg, and a cut is named besides, or its savepoint would be lost.
pub(crate) fn stop_of<'a>(words: &LegWords<'a>) -> Result<LegStop<'a>, JobFault>
    ensures { IsStop words.now result }
{
    match (words.saves, words.stop, words.stop_file, words.save) {
        (saves, stop, None, _) => Ok(LegStop::At(saves, stop)),
        (None, None, Some(file), Some(_)) => Ok(LegStop::Once(file)),
        (_, _, Some(_), _) => Err(JobFault::Cut),
    }
}
