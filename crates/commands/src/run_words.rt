//! The words of `run`.

ghost use Rattle.std.specs.Prelude.{◌≡◌};
ghost use Rattle.commands.specs.Running as said;

use leg_command::is_one_of;

/// The words of `run`: its files, by their names, and in how many subtasks it runs.
#[derive(Clone, Copy)]
pub struct RunWords<'a> {
    pub plan: &'a str,
    pub input: &'a str,
    /// The list of legs that it runs in.
    pub legs: Option<&'a str>,
    pub parallelism: Option<&'a str>,
    /// Where its receipt goes.
    pub receipt: Option<&'a str>,
    /// The table of names of which the receipt tells.
    pub names: Option<&'a str>,
}

impl RunWords<'_> {
    /// Whether words do not go together: beside a list of legs, each of which has a scale of its own and some cut to
    /// stop at, there is no parallelism and no receipt, and a table of names is one of a receipt.
    pub(crate) fn are_wrong(&self) -> bool
        ensures { result ≡ said.are_wrong self.now }
    {
        (self.legs.is_some() && (self.parallelism.is_some() || self.receipt.is_some()))
            || (self.names.is_some() && self.receipt.is_none())
    }
    /// Whether the receipt would be written over a file that is read. Two names of one file are not told apart.
    pub(crate) fn overwrite(&self) -> bool
        ensures { result ≡ said.overwrite self.now }
    {
        is_one_of(
            self.receipt,
            &[Some(self.plan), Some(self.input), self.names],
        )
    }
}
