//! The members that an object has to have, and their forms.

ghost use Rattle.std.specs.Prelude.{◌≡◌, ◌⊎◌, OnOk, OnErr};
ghost use Rattle.place_notes.specs.Notes.{TellsAt, TellsMore};

use crate::owner::Owner;
use crate::seeing::{text_of, whole_of};
use crate::telling::{Notes, tell_value};
use json::Token;
use std::alloc::AllocError;
use std::fmt;
use text_places::{Part, Placed, part_named};

/// What a member has to be.
#[derive(Clone, Copy, PartialEq, Eq)]
pub enum Form {
    Whole,
    Flag,
    Text,
    Operator,
    Function,
    List,
    /// An object, whose own members are looked at apart.
    Object,
}

/// A member: its name, what it has to be, and whether it may be absent.
#[derive(Clone, Copy)]
pub struct Rule {
    pub name: &'static str,
    pub form: Form,
    pub may_be_absent: bool,
}

/// The members of an object, and their names as a sentence says them.
#[derive(Clone, Copy)]
pub struct Shape {
    pub rules: &'static [Rule],
    pub names: &'static str,
}

/// The end of a sentence that says what a value has to be.
#[derive(Clone, Copy)]
struct Wanted {
    what: &'static str,
}

impl fmt::Display for Wanted {
    fn fmt<W: fmt::Write>(&self, f: &mut fmt::Formatter<W>) -> fmt::Result {
        let what = self.what;
        write!(f, "has to be {what}")
    }
}

/// What is wanted of a value that is no whole number.
fn wanted_number(value: &Placed<'_>) -> &'static str {
    match value.token {
        Token::Number(_) => "a whole number of 64 bits (3.0 and 3e0 count as none)",
        _ => "a whole number of 64 bits",
    }
}

fn wanted_function(name: Option<&str>) -> Option<&'static str> {
    match name {
        Some("count" | "sum" | "least" | "greatest") => None,
        Some("min") => Some("one of count, sum, least, greatest (least?)"),
        Some("max") => Some("one of count, sum, least, greatest (greatest?)"),
        Some("avg" | "mean") => Some("one of count, sum, least, greatest (sum and count?)"),
        _ => Some("one of count, sum, least, greatest"),
    }
}

fn is_operator(name: Option<&str>) -> bool {
    matches!(name, Some("eq" | "ne" | "lt" | "le" | "gt" | "ge"))
}

/// What is wanted where a value is not what it has to be.
fn wanted_unless(is_met: bool, what: &'static str) -> Option<&'static str> {
    if is_met { None } else { Some(what) }
}

/// What a form wants of a value; None: the value has the form.
fn wanted_of(form: Form, value: &Placed<'_>) -> Option<&'static str> {
    match form {
        Form::Whole => wanted_unless(whole_of(value).is_some(), wanted_number(value)),
        Form::Flag => wanted_unless(matches!(value.token, Token::Bool(_)), "true or false"),
        Form::Text => wanted_unless(text_of(value).is_some(), "a text"),
        Form::Operator => wanted_unless(
            is_operator(text_of(value)),
            "one of eq, ne, lt, le, gt, ge",
        ),
        Form::Function => wanted_function(text_of(value)),
        Form::List => wanted_unless(matches!(value.token, Token::BeginArray), "a list"),
        Form::Object => None,
    }
}

/// Tells of a member that is missing from the object at an offset.
fn tell_missing(
    notes: &mut Notes,
    owner: Owner<'_>,
    name: &str,
    offset: usize,
) -> Result<(), AllocError>
    ensures { TellsMore notes.old notes.new }
{
    let sentence = format!(in notes.alloc(); "{owner} lacks its member `{name}`")?;
    notes.tell(offset, sentence)
}

/// Tells of a member that is missing or of another form, of the object at an offset.
fn check_member(
    notes: &mut Notes,
    owner: Owner<'_>,
    offset: usize,
    parts: &[Part<'_>],
    rule: &Rule,
) -> Result<(), AllocError>
    ensures { TellsMore notes.old notes.new }
{
    match part_named(parts, rule.name) {
        Some(part) => match wanted_of(rule.form, &part.value) {
            Some(what) => tell_value(notes, owner, rule.name, &part.value, Wanted { what }),
            None => Ok(()),
        },
        None if rule.may_be_absent => Ok(()),
        None => tell_missing(notes, owner, rule.name, offset),
    }
}

/// Tells of a member that no rule has.
fn check_name(
    notes: &mut Notes,
    owner: Owner<'_>,
    part: &Part<'_>,
    shape: Shape,
) -> Result<(), AllocError>
    ensures { TellsMore notes.old notes.new }
{
    let name = part.name;
    if shape.rules.iter().any(|rule| rule.name == name) {
        return Ok(());
    }
    let names = shape.names;
    let sentence = format!(in notes.alloc(); "{owner} has no member {name:?}; it has {names}")?;
    notes.tell(part.offset, sentence)
}

/// Tells of the parts of the object at an offset that are not as its shape wants them.
fn check_parts(
    notes: &mut Notes,
    owner: Owner<'_>,
    offset: usize,
    parts: &[Part<'_>],
    shape: Shape,
) -> Result<(), AllocError>
    ensures { TellsMore notes.old notes.new }
{
    for part in parts {
        check_name(notes, owner, part, shape)?;
    }
    for rule in shape.rules {
        check_member(notes, owner, offset, parts, rule)?;
    }
    Ok(())
}

/// Tells of a value that has to be something else.
///
/// # Errors
///
/// Where memory runs out; nothing is then told.
pub fn tell_other(
    notes: &mut Notes,
    owner: Owner<'_>,
    value: &Placed<'_>,
    wanted: &str,
) -> Result<(), AllocError>
    ensures told { OnOk result (TellsAt value.now.offset notes.old notes.new) }
    ensures more { TellsMore notes.old notes.new }
    ensures refused { OnErr result (notes.new ≡ notes.old) }
{
    let sentence = format!(in notes.alloc(); "{owner} is {value}, and has to be {wanted}")?;
    notes.tell(value.offset, sentence)
}

/// Tells of a value that is no whole number.
///
/// # Errors
///
/// Where memory runs out; nothing is then told.
pub fn check_number(
    notes: &mut Notes,
    owner: Owner<'_>,
    value: &Placed<'_>,
) -> Result<(), AllocError>
    ensures told { OnOk result ((notes.new ≡ notes.old) ⊎ TellsAt value.now.offset notes.old notes.new) }
    ensures more { TellsMore notes.old notes.new }
    ensures refused { OnErr result (notes.new ≡ notes.old) }
{
    if whole_of(value).is_some() {
        return Ok(());
    }
    tell_other(notes, owner, value, wanted_number(value))
}

/// Tells of what in a value is not as the shape of an object wants it.
///
/// # Errors
///
/// Where memory runs out.
pub fn check_object(
    notes: &mut Notes,
    owner: Owner<'_>,
    object: &Placed<'_>,
    shape: Shape,
) -> Result<(), AllocError>
    ensures { TellsMore notes.old notes.new }
{
    if !matches!(object.token, Token::BeginObject) {
        return tell_other(notes, owner, object, "an object");
    }
    let parts = object.parts(notes.alloc())?;
    check_parts(notes, owner, object.offset, &parts, shape)
}

/// The same of each object in a list.
///
/// # Errors
///
/// Where memory runs out.
pub fn check_objects(
    notes: &mut Notes,
    noun: &'static str,
    items: &[Part<'_>],
    shape: Shape,
) -> Result<(), AllocError>
    ensures { TellsMore notes.old notes.new }
{
    for (i, item) in items.iter().enumerate() {
        check_object(notes, Owner::Listed(noun, i), &item.value, shape)?;
    }
    Ok(())
}
