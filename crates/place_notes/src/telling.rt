//! What is told of places.

ghost use Rattle.std.specs.Prelude.{◌≡◌, OnOk, OnErr};
ghost use Rattle.place_notes.specs.Notes.{TellsAt, TellsMore};
ghost use Rattle.place_notes.specs.Values.{is_within, IsBehind};

use crate::owner::{Member, Owner};
use crate::seeing::{member_of, whole_of};
use std::alloc::{AllocError, Global};
use std::fmt;
use std::marker::Model;
use text_places::{Finding, Findings, MOST_PLACES, Placed};

/// What is told of a text: its places in the order in which they were found, at most [`MOST_PLACES`].
#[derive(Drop)]
pub struct Notes {
    alloc: Global,
    places: Vec<Finding>,
    /// How many of them are those of requirements before this one.
    settled: usize,
    /// The fault of this requirement, where it is not the first.
    later: Option<String>,
}

impl Model for Notes {
    ghost use Rattle.std.specs.Prelude.{◌≤◌, length};
    ghost use Rattle.place_notes.specs.Notes.{NotesData};

    ghost Value = { NotesData };

    ghost view = { λ n. record { alloc = n.alloc; places = n.places.items; settled = n.settled; later = n.later } };

    ghost invariant = { λ n. length n.places.items ≤ 20 };
}

impl Notes {
    ghost use Rattle.std.specs.Prelude.{◌≡◌, ◌≤◌, ◌==◌, [], None, IfOk, OnOk, OnErr, IsSome, nat_le, length, take, string_bytes};
    ghost use Rattle.std.specs.List.{list_any};
    ghost use Rattle.place_notes.specs.Notes.{said, Tells, TellsMore};

    /// None yet, of the first requirement.
    pub fn new(alloc: Global) -> Notes
        ensures { result ≡ record { alloc = alloc; places = []; settled = 0; later = None } }
    {
        Notes {
            alloc,
            places: Vec::new(alloc),
            settled: 0,
            later: None,
        }
    }

    /// What takes memory for them.
    pub fn alloc(&self) -> Global
        ensures { result ≡ self.now.alloc }
    {
        self.alloc
    }

    /// The places, in a text of so many bytes.
    ///
    /// # Errors
    ///
    /// Where memory runs out.
    pub fn into_findings(self, end: usize) -> Result<Findings, AllocError>
        ensures { IfOk result (λ found. found.end ≡ end) }
    {
        let mut found = Findings::new(self.alloc, end);
        for note in self.places {
            found.tell(note.offset, note.sentence)?;
        }
        Ok(found)
    }

    /// Whether there are places enough.
    pub fn is_full(&self) -> bool
        ensures { result ≡ nat_le 20 (length self.now.places) }
    {
        self.places.len() >= MOST_PLACES
    }

    /// Goes on to the requirement of a fault behind that of which was told so far. What stands at a place of that one
    /// is not told again.
    ///
    /// # Errors
    ///
    /// Where memory runs out; nothing is then changed.
    pub fn go_on<D: fmt::Display + Drop>(&mut self, fault: D) -> Result<(), AllocError>
        ensures places { self.new.places ≡ self.old.places }
        ensures settled { OnOk result (self.new.settled ≡ length self.old.places) }
        ensures later { OnOk result (IsSome self.new.later) }
        ensures refused { OnErr result (self.new ≡ self.old) }
    {
        let later = format!(in self.alloc; "{fault}")?;
        self.settled = self.places.len();
        self.later = Some(later);
        Ok(())
    }

    fn is_told(&self, offset: usize) -> bool
        ensures { result ≡ list_any (λ p. p.offset == offset) (take self.now.settled self.now.places) }
    {
        self.places
            .iter()
            .take(self.settled)
            .any(|it| it.offset == offset)
    }

    /// The sentence, with the fault where it is not the first.
    fn said(&self, sentence: String) -> Result<String, AllocError>
        ensures { IfOk result (λ words. string_bytes words ≡ said self.now.later (string_bytes sentence)) }
    {
        match &self.later {
            Some(fault) => format!(in self.alloc; "also {fault}: {sentence}"),
            None => Ok(sentence),
        }
    }

    /// Keeps one more place, unless there are enough.
    ///
    /// # Errors
    ///
    /// Where memory runs out; the places are then those that there were.
    pub fn tell(&mut self, offset: usize, sentence: String) -> Result<(), AllocError>
        ensures told { OnOk result (Tells offset (string_bytes sentence) self.old self.new) }
        ensures more { TellsMore self.old self.new }
        ensures refused { OnErr result (self.new ≡ self.old) }
    {
        if self.is_full() || self.is_told(offset) {
            return Ok(());
        }
        let sentence = self.said(sentence)?;
        self.places.push(Finding { offset, sentence })?;
        Ok(())
    }
}

/// The faults that come behind one in their order; none where it is not among them.
pub fn behind<F: Copy + PartialEq>(faults: &[F], fault: F) -> &[F]
    ensures { IsBehind faults.now result.now }
{
    match faults.iter().position(|it| *it == fault) {
        Some(place) => &faults[place + 1..],
        None => &[],
    }
}

/// Tells of the value of a member, and what is wanted of it.
///
/// # Errors
///
/// Where memory runs out; nothing is then told.
pub fn tell_value<D: fmt::Display + Drop>(
    notes: &mut Notes,
    owner: Owner<'_>,
    name: &str,
    value: &Placed<'_>,
    wanted: D,
) -> Result<(), AllocError>
    ensures told { OnOk result (TellsAt value.now.offset notes.old notes.new) }
    ensures more { TellsMore notes.old notes.new }
    ensures refused { OnErr result (notes.new ≡ notes.old) }
{
    let sentence = format!(in notes.alloc(); "`{name}` of {owner} is {value}, and {wanted}")?;
    notes.tell(value.offset, sentence)
}

/// Numbers from a least one to a greatest one.
#[derive(Clone, Copy)]
pub struct Range {
    pub least: i64,
    pub most: i64,
}

impl Range {
    /// Whether there is a number, and it is one of these.
    pub fn has(self, number: Option<i64>) -> bool
        ensures { result ≡ is_within self.least self.most number }
    {
        match number {
            Some(number) => self.least <= number && number <= self.most,
            None => false,
        }
    }
}

impl fmt::Display for Range {
    fn fmt<W: fmt::Write>(&self, f: &mut fmt::Formatter<W>) -> fmt::Result {
        let (least, most) = (self.least, self.most);
        write!(f, "has to be from {least} to {most}")
    }
}

/// Tells of a member that is there and no number of a range.
///
/// # Errors
///
/// Where memory runs out.
pub fn check_range(
    notes: &mut Notes,
    member: Member<'_, '_>,
    range: Range,
) -> Result<(), AllocError>
    ensures { TellsMore notes.old notes.new }
{
    match member_of(notes.alloc(), member.object, member.name)? {
        Some(value) if !range.has(whole_of(&value)) => tell_value(
            notes,
            member.owner,
            member.name,
            &value,
            range,
        ),
        _ => Ok(()),
    }
}
