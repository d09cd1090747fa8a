//! The zones of the system.

ghost use Rattle.std.specs.Prelude.{◌≡◌, IfOk, OnErr};
ghost use Rattle.calendar_numbers.specs.Named.{HasZone};

use crate::zones::Zones;
use std::fs::File;
use std::io::{ErrorKind, Read};
use std::rt::Files;
use std::{fs, io};

/// The most bytes of a zone's file. Those of the Time Zone Database have a few thousand.
const MOST_BYTES: u64 = 1 << 20;

/// Why a zone is not read.
#[derive(Clone, Copy, Debug, PartialEq, Eq)]
pub enum ZoneFault {
    /// There is no such zone.
    Unknown,
    /// There is no memory for it.
    Memory,
}

fn zone_fault(error: &io::Error) -> ZoneFault {
    match error.kind() {
        ErrorKind::OutOfMemory => ZoneFault::Memory,
        _ => ZoneFault::Unknown,
    }
}

/// Whether a byte may stand between the slashes of a zone's name.
fn is_letter(byte: u8) -> bool {
    byte.is_ascii_alphanumeric() || byte == b'_' || byte == b'-' || byte == b'+'
}

/// Whether this is a name as zones have them, as `Europe/Berlin`, so that it leads to no file but those below a folder.
fn is_name(name: &str) -> bool {
    name.split('/').all(|part| !part.is_empty() && part.bytes().all(|byte| is_letter(byte)))
}

/// The bytes of a regular file, or of what a link leads to, if they are not too many.
fn bytes_of<R: Files + AllocGlobal>(rt: &R, path: &str) -> Result<Vec<u8>, io::Error> {
    if !fs::metadata(rt, path)?.is_file() {
        return Err(io::Error::from(ErrorKind::InvalidInput));
    }
    let mut bytes = Vec::new(rt.alloc());
    let mut file = File::open(rt, path)?.take(MOST_BYTES);
    let _count = file.read_to_end(&mut bytes)?;
    Ok(bytes)
}

/// Reads the zone of this name below a folder of zones, as `/usr/share/zoneinfo`, if it is not known yet.
///
/// # Errors
///
/// `Unknown` where there is no file of a zone's table; `Memory`. Nothing is changed then.
pub fn read_zone<R: Files + AllocGlobal>(
    rt: &R,
    folder: &str,
    name: &str,
    zones: &mut Zones,
) -> Result<(), ZoneFault>
    ensures known { IfOk result (λ u. HasZone zones.new.tables.items name.now) }
    ensures stays { OnErr result (zones.new.tables.items ≡ zones.old.tables.items) }
{
    if zones.knows(name) {
        return Ok(());
    }
    if !is_name(name) {
        return Err(ZoneFault::Unknown);
    }
    let Ok(path) = format!(in rt.alloc(); "{folder}/{name}") else {
        return Err(ZoneFault::Memory);
    };
    match bytes_of(rt, path.as_str()) {
        Ok(bytes) => zones.insert(rt.alloc(), name, bytes.as_slice()),
        Err(error) => Err(zone_fault(&error)),
    }
}
