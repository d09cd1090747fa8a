//! The zones that are known, by their names.

ghost use Rattle.std.specs.Prelude.{◌≡◌, ◌≢◌, ◌↔◌, [], Some, IsTrue, IfOk, OnErr, MatchOption};
ghost use Rattle.std.specs.List.{All, Contains};
ghost use Rattle.jiff_tz.specs.Tzif.{tzif_name};
ghost use Rattle.calendar_numbers.specs.Named.{IsZoneOf, HasNoZone, HasZone, IsAdded};

use crate::reading::ZoneFault;
use jiff_core::Error;
use jiff_tz::{TimeZone, Tzif};
use std::alloc::Global;

/// The zones that are known, by their names: `UTC`, and those that were read.
#[derive(Drop)]
pub struct Zones {
    tables: Vec<Tzif>,
}

/// Whether a table has this name.
fn is_named(table: &Tzif, name: &str) -> bool
    ensures { IsTrue result ↔ (tzif_name table.now ≡ Some name.now) }
{
    match table.name() {
        Some(own) => own == name,
        None => false,
    }
}

/// The first table of this name, if there is one.
fn table_of<'z>(tables: &'z [Tzif], name: &str) -> Option<&'z Tzif>
    ensures { MatchOption result (All (λ table. tzif_name table ≢ Some name.now) tables.now) (λ table. Contains tables.now table.now × (tzif_name table.now ≡ Some name.now)) }
{
    for table in tables {
        if is_named(table, name) {
            return Some(table);
        }
    }
    None
}

impl Zones {
    /// `UTC` alone.
    pub fn new(alloc: Global) -> Zones
        ensures { result.tables.items ≡ [] }
    {
        Zones {
            tables: Vec::new(alloc),
        }
    }

    /// Adds the zone of a name, of which the bytes are the table.
    ///
    /// # Errors
    ///
    /// `Unknown` where the bytes are no table of a zone; `Memory`. Nothing is changed then.
    pub fn insert(&mut self, alloc: Global, name: &str, bytes: &[u8]) -> Result<(), ZoneFault>
        ensures ok { IfOk result (λ u. IsAdded self.old.tables.items self.new.tables.items name.now bytes.now) }
        ensures stays { OnErr result (self.new.tables.items ≡ self.old.tables.items) }
    {
        match Tzif::parse(alloc, Some(name), bytes) {
            Ok(table) => match self.tables.push(table) {
                Ok(()) => Ok(()),
                Err(failed) => {
                    drop(failed);
                    Err(ZoneFault::Memory)
                }
            },
            Err(Error::OutOfMemory) => Err(ZoneFault::Memory),
            Err(_) => Err(ZoneFault::Unknown),
        }
    }

    /// Whether the zone of this name is known.
    pub(crate) fn knows(&self, name: &str) -> bool
        ensures { IsTrue result → HasZone self.now.tables.items name.now }
    {
        if name == "UTC" {
            return true;
        }
        match table_of(&self.tables, name) {
            Some(table) => is_named(table, name),
            None => false,
        }
    }

    /// The zone of this name, if it is known.
    pub fn find(&self, name: &str) -> Option<TimeZone<'_>>
        ensures { MatchOption result (HasNoZone self.now.tables.items name.now) (IsZoneOf self.now.tables.items name.now) }
    {
        if name == "UTC" {
            return Some(TimeZone::UTC);
        }
        match table_of(&self.tables, name) {
            Some(table) => Some(TimeZone::Tzif(table)),
            None => None,
        }
    }
}
