//! The window's size, slide, offset and panes.

ghost use Rattle.place_notes.specs.Notes.{TellsMore};

use place_notes::{Member, Notes, Owner, Range, check_range, member_of, tell_value, whole_of};
use plan_model::LONGEST_WINDOW;
use std::alloc::{AllocError, Global};
use std::fmt;
use text_places::Placed;

/// A time may lie in so many windows.
const MOST_PANES: u64 = 256;

/// The size and the slide of a window, and where the slide stands: it is the size where it is absent.
#[derive(Clone, Copy)]
struct Lengths {
    size: i64,
    slide: i64,
    offset: usize,
}

/// How long a window and its slide may be.
fn possible_lengths() -> Range {
    Range {
        least: 1,
        most: LONGEST_WINDOW,
    }
}

/// The size and the slide, if both may be so long.
fn lengths_of(alloc: Global, window: &Placed<'_>) -> Result<Option<Lengths>, AllocError> {
    let Some(size_value) = member_of(alloc, window, "size")? else {
        return Ok(None);
    };
    let slide_value = member_of(alloc, window, "slide")?.unwrap_or(size_value);
    let (Some(size), Some(slide)) = (whole_of(&size_value), whole_of(&slide_value)) else {
        return Ok(None);
    };
    if !possible_lengths().has(Some(size)) || !possible_lengths().has(Some(slide)) {
        return Ok(None);
    }
    Ok(Some(Lengths {
        size,
        slide,
        offset: slide_value.offset,
    }))
}

/// Offsets between minus a slide and the slide.
#[derive(Clone, Copy)]
struct Offsets {
    slide: i64,
}

impl Offsets {
    fn has(self, offset: Option<i64>) -> bool {
        let slide = i128::from(self.slide);
        matches!(offset, Some(offset) if -slide < i128::from(offset) && i128::from(offset) < slide)
    }
}

impl fmt::Display for Offsets {
    fn fmt<W: fmt::Write>(&self, f: &mut fmt::Formatter<W>) -> fmt::Result {
        let slide = self.slide;
        write!(f, "has to be above -{slide} and below the slide, {slide}")
    }
}

/// Tells of an offset that is not between minus the slide and the slide.
fn check_offset_of(
    notes: &mut Notes,
    window: &Placed<'_>,
    offsets: Offsets,
) -> Result<(), AllocError>
    ensures { TellsMore notes.old notes.new }
{
    let owner = Owner::One("the window");
    match member_of(notes.alloc(), window, "offset")? {
        Some(value) if !offsets.has(whole_of(&value)) => tell_value(
            notes, owner, "offset", &value, offsets,
        ),
        _ => Ok(()),
    }
}

fn tell_panes(notes: &mut Notes, lengths: Lengths, panes: u64) -> Result<(), AllocError>
    ensures { TellsMore notes.old notes.new }
{
    let (size, slide) = (lengths.size, lengths.slide);
    let least = size.unsigned_abs().div_ceil(MOST_PANES);
    let sentence = format!(in notes.alloc();
        "a time would have {panes} windows (size {size} over slide {slide}), and may have {MOST_PANES}: take a slide of at least {least}"
    )?;
    notes.tell(lengths.offset, sentence)
}

/// Tells of a slide of which more than 256 go into the size.
fn check_panes_of(notes: &mut Notes, lengths: Lengths) -> Result<(), AllocError>
    ensures { TellsMore notes.old notes.new }
{
    if lengths.slide < 1 {
        return Ok(());
    }
    let panes = lengths
        .size
        .unsigned_abs()
        .div_ceil(lengths.slide.unsigned_abs());
    if panes <= MOST_PANES {
        return Ok(());
    }
    tell_panes(notes, lengths, panes)
}

pub(crate) fn check_offset(notes: &mut Notes, plan: &Placed<'_>) -> Result<(), AllocError>
    ensures { TellsMore notes.old notes.new }
{
    let Some(window) = member_of(notes.alloc(), plan, "window")? else {
        return Ok(());
    };
    match lengths_of(notes.alloc(), &window)? {
        Some(lengths) => {
            let slide = lengths.slide;
            check_offset_of(notes, &window, Offsets { slide })
        }
        None => Ok(()),
    }
}

pub(crate) fn check_panes(notes: &mut Notes, plan: &Placed<'_>) -> Result<(), AllocError>
    ensures { TellsMore notes.old notes.new }
{
    let Some(window) = member_of(notes.alloc(), plan, "window")? else {
        return Ok(());
    };
    match lengths_of(notes.alloc(), &window)? {
        Some(lengths) => check_panes_of(notes, lengths),
        None => Ok(()),
    }
}

/// Tells of a length of the window that is not 1 to 2^40.
pub(crate) fn check_length(
    notes: &mut Notes,
    plan: &Placed<'_>,
    name: &'static str,
) -> Result<(), AllocError>
    ensures { TellsMore notes.old notes.new }
{
    let Some(window) = member_of(notes.alloc(), plan, "window")? else {
        return Ok(());
    };
    let member = Member {
        owner: Owner::One("the window"),
        object: &window,
        name,
    };
    check_range(notes, member, possible_lengths())
}
