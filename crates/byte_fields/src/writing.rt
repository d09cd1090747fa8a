//! The fields put after bytes that are there. Where no memory is to be had, a field may be there in part.

ghost use Rattle.std.specs.Prelude.{◌≡◌, ◌++◌, OnOk};
ghost use Rattle.byte_fields.specs.Fields.{u8_field, u16_field, u64_field, i64_field, u128_field, i128_field};

use std::alloc::AllocError;

/// These bytes.
///
/// # Errors
///
/// Only where memory runs out.
pub fn put_bytes(out: &mut Vec<u8>, bytes: &[u8]) -> Result<(), AllocError>
    ensures { OnOk result (out.new.items ≡ out.old.items ++ bytes.now) }
{
    out.extend_from_slice(bytes)
}

/// A byte.
///
/// # Errors
///
/// Only where memory runs out.
#[tactic(auto, unfolding(crate::specs::Fields::u8_field))]
pub fn put_u8(out: &mut Vec<u8>, byte: u8) -> Result<(), AllocError>
    ensures { OnOk result (out.new.items ≡ out.old.items ++ u8_field.spell byte) }
{
    out.extend_from_slice(&[byte])
}

/// A number of two bytes.
///
/// # Errors
///
/// Only where memory runs out.
#[tactic(auto, unfolding(crate::specs::Fields::u16_field))]
pub fn put_u16(out: &mut Vec<u8>, short: u16) -> Result<(), AllocError>
    ensures { OnOk result (out.new.items ≡ out.old.items ++ u16_field.spell short) }
{
    out.extend_from_slice(&short.to_be_bytes())
}

/// A number of eight bytes.
///
/// # Errors
///
/// Only where memory runs out.
#[tactic(auto, unfolding(crate::specs::Fields::u64_field))]
pub fn put_u64(out: &mut Vec<u8>, number: u64) -> Result<(), AllocError>
    ensures { OnOk result (out.new.items ≡ out.old.items ++ u64_field.spell number) }
{
    out.extend_from_slice(&number.to_be_bytes())
}

/// A number of eight bytes in two's complement.
///
/// # Errors
///
/// Only where memory runs out.
#[tactic(auto, unfolding(crate::specs::Fields::i64_field))]
pub fn put_i64(out: &mut Vec<u8>, number: i64) -> Result<(), AllocError>
    ensures { OnOk result (out.new.items ≡ out.old.items ++ i64_field.spell number) }
{
    put_u64(out, number.cast_unsigned())
}

#[tactic(auto, unfolding(crate::specs::Fields::u128_field))]
fn put_u128(out: &mut Vec<u8>, number: u128) -> Result<(), AllocError>
    ensures { OnOk result (out.new.items ≡ out.old.items ++ u128_field.spell number) }
{
    let high = (number / (1 << 64)) as u64;
    let low = (number % (1 << 64)) as u64;
    let halves = [high.to_be_bytes(), low.to_be_bytes()];
    put_bytes(out, halves.as_flattened())
}

/// A number of sixteen bytes in two's complement.
///
/// # Errors
///
/// Only where memory runs out.
#[tactic(auto, unfolding(crate::specs::Fields::i128_field))]
pub fn put_i128(out: &mut Vec<u8>, number: i128) -> Result<(), AllocError>
    ensures { OnOk result (out.new.items ≡ out.old.items ++ i128_field.spell number) }
{
    put_u128(out, number.cast_unsigned())
}
