//! The fields read from the front of bytes: each with the bytes behind it.

ghost use Rattle.std.specs.Prelude.{◌≡◌, ◌≤◌, IfOk};
ghost use Rattle.byte_fields.specs.Reads.{Reads};
ghost use Rattle.byte_fields.specs.Format.{raw, mark};
ghost use Rattle.byte_fields.specs.Fields.{u8_field, few_field, u16_field, u64_field, i64_field, u128_field, i128_field};

use crate::fault::FieldFault;

/// So many bytes.
///
/// # Errors
///
/// `Truncated` alone.
pub fn read_bytes(count: usize, bytes: &[u8]) -> Result<(&[u8], &[u8]), FieldFault>
    ensures { Reads (λ x. (x.0.now, x.1.now)) result ((raw count).read bytes.now) }
{
    if bytes.len() < count {
        return Err(FieldFault::Truncated);
    }
    Ok(bytes.split_at(count))
}

/// The bytes behind those of a mark.
///
/// # Errors
///
/// `Truncated`, or `Magic` where there are others.
pub fn read_mark<'a>(magic: &[u8], bytes: &'a [u8]) -> Result<&'a [u8], FieldFault>
    ensures { Reads (λ rest. (magic.now, rest.now)) result ((mark magic.now).read bytes.now) }
{
    let (front, rest) = read_bytes(magic.len(), bytes)?;
    if front != magic {
        return Err(FieldFault::Magic);
    }
    Ok(rest)
}

/// A byte.
///
/// # Errors
///
/// `Truncated` alone.
#[tactic(auto, unfolding(crate::specs::Fields::u8_field))]
pub fn read_u8(bytes: &[u8]) -> Result<(u8, &[u8]), FieldFault>
    ensures { Reads (λ x. (x.0, x.1.now)) result (u8_field.read bytes.now) }
{
    let Some((front, rest)) = bytes.split_first_chunk::<1>() else {
        return Err(FieldFault::Truncated);
    };
    Ok((u8::from_be_bytes(*front), rest))
}

/// A number from 1 to a bound, in a byte.
///
/// # Errors
///
/// `Truncated`, or `Range` where it is another number.
#[tactic(auto, unfolding(crate::specs::Fields::few_field))]
pub fn read_few(most: u8, bytes: &[u8]) -> Result<(u8, &[u8]), FieldFault>
    ensures read { Reads (λ x. (x.0, x.1.now)) result ((few_field most).read bytes.now) }
    ensures some { IfOk result (λ x. 1 ≤ x.0) }
    ensures few { IfOk result (λ x. x.0 ≤ most) }
{
    let (count, rest) = read_u8(bytes)?;
    if count < 1 || count > most {
        return Err(FieldFault::Range);
    }
    Ok((count, rest))
}

/// A number of two bytes.
///
/// # Errors
///
/// `Truncated` alone.
#[tactic(auto, unfolding(crate::specs::Fields::u16_field))]
pub fn read_u16(bytes: &[u8]) -> Result<(u16, &[u8]), FieldFault>
    ensures { Reads (λ x. (x.0, x.1.now)) result (u16_field.read bytes.now) }
{
    let Some((front, rest)) = bytes.split_first_chunk::<2>() else {
        return Err(FieldFault::Truncated);
    };
    Ok((u16::from_be_bytes(*front), rest))
}

/// A number of eight bytes.
///
/// # Errors
///
/// `Truncated` alone.
#[tactic(auto, unfolding(crate::specs::Fields::u64_field))]
pub fn read_u64(bytes: &[u8]) -> Result<(u64, &[u8]), FieldFault>
    ensures { Reads (λ x. (x.0, x.1.now)) result (u64_field.read bytes.now) }
{
    let Some((front, rest)) = bytes.split_first_chunk::<8>() else {
        return Err(FieldFault::Truncated);
    };
    Ok((u64::from_be_bytes(*front), rest))
}

/// A number of eight bytes in two's complement.
///
/// # Errors
///
/// `Truncated` alone.
#[tactic(auto, unfolding(crate::specs::Fields::i64_field))]
pub fn read_i64(bytes: &[u8]) -> Result<(i64, &[u8]), FieldFault>
    ensures { Reads (λ x. (x.0, x.1.now)) result (i64_field.read bytes.now) }
{
    let (number, rest) = read_u64(bytes)?;
    Ok((number.cast_signed(), rest))
}

#[tactic(auto, unfolding(crate::specs::Fields::u128_field))]
fn read_u128(bytes: &[u8]) -> Result<(u128, &[u8]), FieldFault>
    ensures { Reads (λ x. (x.0, x.1.now)) result (u128_field.read bytes.now) }
{
    let (high, rest) = read_u64(bytes)?;
    let (low, rest) = read_u64(rest)?;
    Ok((u128::from(high) * (1 << 64) + u128::from(low), rest))
}

/// A number of sixteen bytes in two's complement.
///
/// # Errors
///
/// `Truncated` alone.
#[tactic(auto, unfolding(crate::specs::Fields::i128_field))]
pub fn read_i128(bytes: &[u8]) -> Result<(i128, &[u8]), FieldFault>
    ensures { Reads (λ x. (x.0, x.1.now)) result (i128_field.read bytes.now) }
{
    let (wide, rest) = read_u128(bytes)?;
    Ok((wide.cast_signed(), rest))
}
