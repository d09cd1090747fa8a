//! The way through the tokens of a text.

ghost use Rattle.std.specs.Prelude.{◌≡◌, length, IfOk};

use crate::mark::{Mark, Marks};
use crate::open::Open;
use crate::warning::TextKind;
use json::{Reader, Scratch, Token};
use std::alloc::{AllocError, Global};
use text_places::{Findings, limit_of};

/// So many lists and objects are open within a partition of an input: the input, the source and the partition.
const IN_PARTITION: usize = 3;

/// And so many within an entry of it.
const IN_ENTRY: usize = 4;

/// What is known at a place of a text.
#[derive(Drop)]
struct Walk<'t> {
    alloc: Global,
    kind: TextKind,
    open: Vec<Open<'t>>,
    /// The last name.
    name: &'t str,
    marks: Marks,
    found: Findings,
}

impl<'t> Walk<'t> {
    fn new(alloc: Global, kind: TextKind, end: usize) -> Walk<'t>
        ensures { result.found.end ≡ end }
    {
        Walk {
            alloc,
            kind,
            open: Vec::new(alloc),
            name: "",
            marks: Marks::new(),
            found: Findings::new(alloc, end),
        }
    }

    /// Warns of a name that stands in its object already.
    fn pass_name(&mut self, offset: usize, name: &'t str) -> Result<(), AllocError>
        ensures { self.new.found.end ≡ self.old.found.end }
    {
        self.name = name;
        let is_again = match self.open.last_mut() {
            Some(object) => object.has_already(name)?,
            None => false,
        };
        if is_again {
            let sentence = format!(in self.alloc;
                "the member {name:?} stands here again; of members with one name the last counts"
            )?;
            self.found.tell(offset, sentence)?;
        }
        Ok(())
    }

    fn pass_list(&mut self) -> Result<(), AllocError>
        ensures { self.new.found.end ≡ self.old.found.end }
    {
        self.open.push(Open::List)?;
        if self.open.len() == IN_PARTITION {
            self.marks = Marks::new();
        }
        Ok(())
    }

    fn pass_object(&mut self) -> Result<(), AllocError>
        ensures { self.new.found.end ≡ self.old.found.end }
    {
        self.open.push(Open::new_object(self.alloc))?;
        if self.open.len() == IN_ENTRY {
            self.marks.begin_entry();
        }
        Ok(())
    }

    /// Keeps a number that is the watermark of an entry.
    fn pass_number(&mut self, offset: usize, number: &str)
        ensures { self.new.found.end ≡ self.old.found.end }
    {
        if self.open.len() == IN_ENTRY && self.name == "watermark" {
            if let Ok(time) = number.parse::<i64>() {
                self.marks.see(Mark { offset, time });
            }
        }
    }

    /// Warns of the watermark of an entry that ends, where it is below one before it.
    fn end_entry(&mut self) -> Result<(), AllocError>
        ensures { self.new.found.end ≡ self.old.found.end }
    {
        let Some(fall) = self.marks.end_entry() else {
            return Ok(());
        };
        let (time, greatest) = (fall.mark.time, fall.greatest);
        let sentence = format!(in self.alloc;
            "the watermark {time} says nothing, as it is below the watermark {greatest} before it"
        )?;
        self.found.tell(fall.mark.offset, sentence)
    }

    /// Warns of a partition that ends, where its watermarks never rise.
    fn end_partition(&mut self, offset: usize) -> Result<(), AllocError>
        ensures { self.new.found.end ≡ self.old.found.end }
    {
        let Some(level) = self.marks.level() else {
            return Ok(());
        };
        let (count, first) = (level.count, level.first);
        let sentence = format!(in self.alloc;
            "a partition ends here whose {count} watermarks never rise: none is above the first, {first}"
        )?;
        self.found.tell(offset, sentence)
    }

    fn pass_end(&mut self, offset: usize) -> Result<(), AllocError>
        ensures { self.new.found.end ≡ self.old.found.end }
    {
        if self.kind == TextKind::Input {
            match self.open.len() {
                IN_ENTRY => self.end_entry()?,
                IN_PARTITION => self.end_partition(offset)?,
                _ => {}
            }
        }
        let _ = self.open.pop();
        Ok(())
    }

    /// Passes a token, and says whether the text is still JSON to a reader with limits.
    fn pass_within(&mut self, offset: usize, token: Token<'t>) -> Result<bool, AllocError>
        ensures { self.new.found.end ≡ self.old.found.end }
    {
        self.pass(offset, token)?;
        Ok(limit_of(self.open.len(), token).is_none())
    }

    fn pass(&mut self, offset: usize, token: Token<'t>) -> Result<(), AllocError>
        ensures { self.new.found.end ≡ self.old.found.end }
    {
        match token {
            Token::Key(name) => self.pass_name(offset, name),
            Token::BeginArray => self.pass_list(),
            Token::BeginObject => self.pass_object(),
            Token::EndArray | Token::EndObject => self.pass_end(offset),
            Token::Number(number) => {
                self.pass_number(offset, number);
                Ok(())
            }
            _ => Ok(()),
        }
    }
}

/// The warnings of a text, which is JSON, in the order in which they are found. There are none where a number is too
/// large or the nesting too deep for what reads it.
pub(crate) fn found_in(alloc: Global, text: &str, kind: TextKind) -> Result<Findings, AllocError>
    ensures { IfOk result (λ found. found.end ≡ length text.now) }
{
    let mut scratch = Scratch::new(alloc);
    let mut reader = Reader::new(text, &mut scratch)?;
    let mut walk = Walk::new(alloc, kind, text.len());
    let mut offset = reader.offset();
    'tokens: while let Some(token) = reader.next() {
        if !walk.pass_within(offset, token)? {
            return Ok(Findings::new(alloc, text.len()));
        }
        offset = reader.offset();
    }
    Ok(walk.found)
}
