//! The words of `check`, and what of them is easily overlooked.

ghost use Rattle.std.specs.Prelude.{◌≡◌};
ghost use Rattle.std.specs.Option.{option_or};
ghost use Rattle.commands.specs.Checking.{are_wrong};

/// The words of `check`: its files, and those of a leg that is to go over them.
#[derive(Clone, Copy)]
pub struct CheckWords<'a> {
    pub plan: &'a str,
    pub input: Option<&'a str>,
    /// The scale behind the input.
    pub scale: Option<&'a str>,
    /// The scale as an option, which needs no input.
    pub scale_option: Option<&'a str>,
    /// The savepoint that the leg is to go on from.
    pub from: Option<&'a str>,
    /// The cut that it is to stop at.
    pub stop: Option<&'a str>,
    /// Where the savepoint is to go that it leaves.
    pub save: Option<&'a str>,
}

impl<'a> CheckWords<'a> {
    /// Whether words do not go together: a savepoint or a cut is named, and no input that they are of; or two scales
    /// are.
    pub(crate) fn are_wrong(&self) -> bool
        ensures { result ≡ are_wrong self.now }
    {
        (self.input.is_none() && (self.from.is_some() || self.stop.is_some()))
            || (self.scale.is_some() && self.scale_option.is_some())
    }

    /// The scale, wherever it is named.
    pub(crate) fn any_scale(&self) -> Option<&'a str>
        ensures { result ≡ option_or self.now.scale self.now.scale_option }
    {
        match self.scale {
            Some(scale) => Some(scale),
            None => self.scale_option,
        }
    }
}

/// Prints what of the words of a leg is easily overlooked: that its savepoint is lost, or that it leaves none.
pub(crate) fn warn_of_words<R: Print>(rt: &R, words: &CheckWords<'_>) {
    match (words.stop, words.save) {
        (Some(cut), None) => {
            let _ = println!(rt;
                "--stop {cut}: warning: without --save the savepoint that the leg leaves there is lost"
            );
        }
        (None, Some(file)) => {
            let _ = println!(rt;
                "--save {file}: warning: without --stop or --stop-file the leg goes to the end of the input, and leaves no savepoint"
            );
        }
        _ => {}
    }
}
