//! The words of `leg`.

ghost use Rattle.std.specs.Prelude.{◌≡◌};
ghost use Rattle.std.specs.List.{list_any};
ghost use Rattle.leg_command.specs.Receipts as said;

/// The words of `leg`: its files, by their names, where it takes savepoints on its way, and where it is to stop.
#[derive(Clone, Copy)]
pub struct LegWords<'a> {
    pub plan: &'a str,
    pub input: &'a str,
    pub scale: &'a str,
    /// The savepoint to go on from.
    pub from: Option<&'a str>,
    /// The cuts at which it takes savepoints on its way, with a `+` between them.
    pub saves: Option<&'a str>,
    /// The cut to stop at.
    pub stop: Option<&'a str>,
    /// The file that stops the leg where it is, once it is there.
    pub stop_file: Option<&'a str>,
    /// Where the savepoint goes that the leg leaves: that of its stop, or else the last on its way.
    pub save: Option<&'a str>,
    /// The receipt of the leg that left the savepoint.
    pub since: Option<&'a str>,
    /// Where the receipt of this leg goes.
    pub receipt: Option<&'a str>,
    /// The table of names of which receipts tell.
    pub names: Option<&'a str>,
}

/// Whether two words are there, and the same.
fn are_same(one: Option<&str>, other: Option<&str>) -> bool
    ensures { result ≡ said.are_same one.entry other.entry }
{
    match (one, other) {
        (Some(one), Some(other)) => one == other,
        _ => false,
    }
}

/// Whether a word is there, and the same as one of others.
pub fn is_one_of(word: Option<&str>, others: &[Option<&str>]) -> bool
    ensures { result ≡ list_any (λ other. said.are_same word.entry other) others.now }
{
    others.iter().any(|other| are_same(word, *other))
}

impl LegWords<'_> {
    /// Whether the words of receipts do not go with the others: a receipt to go on by needs a savepoint to go on from,
    /// a table of names is one of a receipt, and a receipt goes to a file of its own.
    pub(crate) fn are_wrong(&self) -> bool
        ensures { result ≡ said.are_wrong self.now }
    {
        (self.since.is_some() && self.from.is_none())
            || (self.names.is_some() && !(self.since.is_some() || self.receipt.is_some()))
            || are_same(self.save, self.receipt)
    }
    /// Whether the leg would write over a file that it reads. The next savepoint and the next receipt may take the
    /// place of those that it goes on from. Two names of one file are not told apart.
    pub(crate) fn overwrite(&self) -> bool
        ensures { result ≡ said.overwrite self.now }
    {
        let (plan, input, scale) = (Some(self.plan), Some(self.input), Some(self.scale));
        let (names, stop_file) = (self.names, self.stop_file);
        is_one_of(
            self.save,
            &[plan, input, scale, names, stop_file, self.since],
        ) || is_one_of(
            self.receipt,
            &[plan, input, scale, names, stop_file, self.from],
        )
    }
}
