//! Who has a member.

use std::fmt;
use text_places::Placed;

/// An object of a text, as a sentence names it.
#[derive(Clone, Copy)]
pub enum Owner<'n> {
    /// The only one of its kind.
    One(&'static str),
    /// The one at a place in a list.
    Listed(&'static str, usize),
    /// The one under a name.
    Named(&'static str, &'n str),
}

impl fmt::Display for Owner<'_> {
    fn fmt<W: fmt::Write>(&self, f: &mut fmt::Formatter<W>) -> fmt::Result {
        match self {
            Owner::One(noun) => f.write_str(noun),
            Owner::Listed(noun, place) => write!(f, "{noun} {place}"),
            Owner::Named(noun, name) => write!(f, "{noun} {name:?}"),
        }
    }
}

/// A member of an object, and whose it is.
#[derive(Clone, Copy)]
pub struct Member<'o, 'm> {
    pub owner: Owner<'o>,
    pub object: &'m Placed<'m>,
    pub name: &'static str,
}
