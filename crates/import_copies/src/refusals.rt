//! What an import is refused for, place by place.

ghost use Rattle.std.specs.Prelude.{◌≡◌};
ghost use Rattle.import_copies.specs.Refused.{first_code, WithRefusal, IsAnswered};

use import_words::{ImportCode, ImportFault};
use std::alloc::{AllocError, Global};

/// How many places are told.
const MOST_TOLD: u64 = 20;

/// What an import is refused for, if for anything: the first places, and how many more there are.
#[derive(Drop)]
pub(crate) struct Refusals {
    alloc: Global,
    /// The code of the first place, and a line for each place that is told, of which the first is without its code.
    told: Option<(ImportCode, String)>,
    told_count: u64,
    more: u64,
}

/// The line of one more place, behind others.
fn push_line(
    alloc: Global,
    lines: &mut String,
    code: ImportCode,
    sentence: &str,
) -> Result<(), AllocError> {
    let line = format!(in alloc; "\n{code} {sentence}")?;
    lines.push_str(line.as_str())
}

/// The line that tells how many more there are, behind others.
fn push_more(alloc: Global, lines: &mut String, more: u64) -> Result<(), AllocError> {
    let line = format!(in alloc; "\n.. and {more} more")?;
    lines.push_str(line.as_str())
}

/// Nothing yet.
pub(crate) fn no_refusals(alloc: Global) -> Refusals
    ensures { first_code result ≡ None }
{
    Refusals {
        alloc,
        told: None,
        told_count: 0,
        more: 0,
    }
}

impl Refusals {
    /// Whether no further place is told: it is only counted.
    pub(crate) fn is_full(&self) -> bool {
        self.told_count >= MOST_TOLD
    }

    /// Counts a place that is not told.
    pub(crate) fn skip(&mut self)
        ensures { first_code self.new ≡ first_code self.old }
    {
        self.more = self.more.saturating_add(1);
    }

    /// Takes in what is told of one more place.
    ///
    /// # Errors
    ///
    /// What is no refusal; `Memory`.
    pub(crate) fn add(&mut self, told: ImportFault) -> Result<(), ImportFault>
        ensures { WithRefusal (first_code self.old) told (first_code self.new) result }
    {
        let ImportFault::Refused(code, sentence) = told else {
            return Err(told);
        };
        match &mut self.told {
            Some((_, lines)) => push_line(self.alloc, lines, code, sentence.as_str())?,
            None => self.told = Some((code, sentence)),
        }
        self.told_count = self.told_count.saturating_add(1);
        Ok(())
    }

    /// The answer of an import that is at its end.
    ///
    /// # Errors
    ///
    /// What it is refused for, place by place, with the code of the first; `Memory`.
    pub(crate) fn answer(&self) -> Result<(), ImportFault>
        ensures { IsAnswered (first_code self.now) result }
    {
        let Some((code, told)) = &self.told else {
            return Ok(());
        };
        let mut lines = told.clone()?;
        if self.more > 0 {
            push_more(self.alloc, &mut lines, self.more)?;
        }
        Err(ImportFault::Refused(*code, lines))
    }
}
