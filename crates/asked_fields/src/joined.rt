//! Texts that are put together as one.

ghost use Rattle.std.specs.Prelude.{◌≡◌, ◌++◌, drop, OnOk};
ghost use Rattle.asked_fields.specs.Joined.{byte_of, escaped_byte, joint_text};

use crate::joint::Joint;
use std::alloc::AllocError;

/// Puts a byte behind others, behind a backslash where it is the joint or a backslash.
fn push_escaped(joined: &mut Vec<u8>, joint: u8, byte: u8) -> Result<(), AllocError>
    ensures { OnOk result (joined.new.items ≡ joined.old.items ++ escaped_byte joint byte) }
{
    if byte == joint || byte == b'\\' {
        joined.push(b'\\')?;
    }
    joined.push(byte)?;
    Ok(())
}

/// Puts a text behind others that were put here, each behind a joint. In it a joint and a backslash stand behind a
/// backslash, so that other texts are never the same together.
///
/// # Errors
///
/// Only where memory runs out.
pub fn push_text(joined: &mut Vec<u8>, joint: Joint, text: &[u8]) -> Result<(), AllocError>
    ensures { OnOk result (joined.new.items ≡ joined.old.items ++ joint_text (byte_of joint) text.now) }
{
    let joint = joint.byte();
    joined.push(joint)?;
    for byte in text {
        push_escaped(joined, joint, *byte)?;
    }
    Ok(())
}

/// The texts that were put together, with a joint between.
pub fn joined_text(joined: &[u8]) -> &[u8]
    ensures { result.now ≡ drop 1 joined.now }
{
    if joined.is_empty() {
        return joined;
    }
    &joined[1..]
}
