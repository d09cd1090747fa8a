//! A field that is asked for.

ghost use Rattle.std.specs.Prelude.{◌≡◌, map, option_map, IfOk};
ghost use Rattle.asked_fields.specs.Joined.{parts_in};
ghost use Rattle.asked_fields.specs.Asked.{IsAsked};

use crate::joint::Joint;
use std::alloc::{AllocError, Global};

/// A field that a column asks for: that of a name, or, where there is none and the name has parts, the texts of all
/// fields that have these as their names.
#[derive(Drop)]
pub struct AskedField<'w> {
    pub name: &'w str,
    /// What stands between the parts.
    pub joint: Joint,
    /// The parts of the name, or none.
    pub parts: Vec<&'w str>,
}

/// The parts of a name.
fn parts_of<'w>(alloc: Global, name: &'w str, joint: Joint) -> Result<Vec<&'w str>, AllocError>
    ensures { IfOk result (λ parts. map (λ part. part.now) parts.items ≡ parts_in joint name.now) }
{
    let mut parts = Vec::new(alloc);
    for part in name.split(joint.mark()) {
        parts.push(part)?;
    }
    Ok(parts)
}

impl AskedField<'_> {
    /// The field of a name, which has parts where it has a joint.
    ///
    /// # Errors
    ///
    /// Only where memory runs out.
    pub fn new<'w>(
        alloc: Global,
        name: &'w str,
        joint: Option<Joint>,
    ) -> Result<AskedField<'w>, AllocError>
        ensures { IfOk result (IsAsked name.now joint) }
    {
        match joint {
            Some(joint) => Ok(AskedField {
                name,
                joint,
                parts: parts_of(alloc, name, joint)?,
            }),
            None => Ok(AskedField {
                name,
                joint: Joint::Plus,
                parts: Vec::new(alloc),
            }),
        }
    }
}
