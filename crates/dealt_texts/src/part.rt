//! The text of a partition of one part, as its rows come.

ghost use Rattle.std.specs.Prelude.{◌≡◌, [], OnOk};
ghost use Rattle.dealt_texts.specs.Parts.{growing, nothing, closed, separated, with_mark, with_marks, opened, with_row, whole};

use entry_texts::{push_decimal, push_row, push_watermark_label};
use std::alloc::{AllocError, Global};
use std::marker::Model;

/// The text of a partition of one part, from which what is written elsewhere is taken out.
#[derive(Drop)]
pub struct PartText {
    text: String,
    /// Whether no entry stands in it.
    is_first: bool,
    /// Whether the last entry that stands in it is one of rows that is not closed.
    is_open: bool,
}

impl Model for PartText {
    ghost use Rattle.std.specs.Prelude.{string_bytes};
    ghost use Rattle.dealt_texts.specs.Parts.{Growing, growing};

    ghost Value = { Growing };

    ghost view = { λ part. growing (string_bytes part.text) part.is_first part.is_open };
}

impl PartText {
    /// One without an entry.
    pub(crate) fn new(alloc: Global) -> PartText
        ensures { result ≡ nothing }
    {
        PartText {
            text: String::new(alloc),
            is_first: true,
            is_open: false,
        }
    }

    /// The text that was not taken out.
    pub fn text(&self) -> &str
        ensures { result.now ≡ self.now.text }
    {
        self.text.as_str()
    }

    /// Takes the text out.
    pub(crate) fn clear(&mut self)
        ensures { self.new ≡ growing [] self.old.is_first self.old.is_open }
    {
        self.text.clear();
    }

    /// Closes the last entry, if it is one of rows that is not closed.
    fn close(&mut self) -> Result<(), AllocError>
        ensures { OnOk result (self.new ≡ closed self.old) }
    {
        if self.is_open {
            self.text.push_str("]}")?;
        }
        self.is_open = false;
        Ok(())
    }

    /// What stands before an entry: the list's bracket, or a comma.
    fn separate(&mut self) -> Result<(), AllocError>
        ensures { OnOk result (self.new ≡ separated self.old) }
    {
        self.text.push_str(if self.is_first { "[" } else { "," })?;
        self.is_first = false;
        Ok(())
    }

    /// Puts a watermark behind it.
    fn push_mark(&mut self, mark: i64) -> Result<(), AllocError>
        ensures { OnOk result (self.new ≡ with_mark mark self.old) }
    {
        self.separate()?;
        push_watermark_label(&mut self.text)?;
        push_decimal(&mut self.text, mark)?;
        self.text.push_str("}")
    }

    /// Ends the last entry, and puts a watermark behind it, if there is one.
    pub(crate) fn begin(&mut self, mark: Option<i64>) -> Result<(), AllocError>
        ensures { OnOk result (self.new ≡ with_marks mark (closed self.old)) }
    {
        self.close()?;
        match mark {
            Some(mark) => self.push_mark(mark),
            None => Ok(()),
        }
    }

    /// What stands before a row: a comma, or the beginning of an entry.
    fn open(&mut self) -> Result<(), AllocError>
        ensures { OnOk result (self.new ≡ opened self.old) }
    {
        if self.is_open {
            return self.text.push_str(",");
        }
        self.separate()?;
        self.is_open = true;
        self.text.push_str("{\"rows\":[")
    }

    /// Puts a row into the last entry, or into a new one where that is closed or one of a watermark.
    pub(crate) fn push_row(&mut self, first: i64, others: &[i64]) -> Result<(), AllocError>
        ensures { OnOk result (self.new ≡ with_row first others.now self.old) }
    {
        self.open()?;
        push_row(&mut self.text, first, others)
    }

    /// Ends the partition.
    pub(crate) fn end(&mut self) -> Result<(), AllocError>
        ensures { OnOk result (self.new ≡ whole self.old) }
    {
        self.close()?;
        self.text.push_str(if self.is_first { "[]" } else { "]" })
    }
}
