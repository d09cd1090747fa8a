//! The zones that columns need.

ghost use Rattle.std.specs.Prelude.{option_map, IfOk};
ghost use Rattle.import_words.specs.Judging.{IsRefusal};
ghost use Rattle.import_command.specs.Zoning.{IsFold, IsClocks};

use calendar_numbers::{ZoneFault, Zones, read_zone};
use import_columns::{Column, ColumnWord, place_column, zone_of};
use import_words::{ImportCode, ImportFault, refused};
use local_times::{Clocks, Fold};
use std::alloc::Global;
use std::rt::Files;

/// The folder of the system's zones, where no other is named.
const ZONE_FOLDER: &str = "/usr/share/zoneinfo";

fn unknown_zone(alloc: Global, field: &str, zone: &str) -> ImportFault
    ensures { IsRefusal ImportCode.Columns result }
{
    refused(
        ImportCode::Columns,
        format!(in alloc; "{field:?}: the system has no zone {zone:?}"),
    )
}

/// What the words call a zone that times have which have none.
const ZONE: &str = "--zone";

/// Reads a zone that something needs, if it needs one.
fn read_needed<R: Files + AllocGlobal>(
    rt: &R,
    folder: &str,
    field: &str,
    zone: Option<&str>,
    zones: &mut Zones,
) -> Result<(), ImportFault> {
    let Some(zone) = zone else {
        return Ok(());
    };
    match read_zone(rt, folder, zone, zones) {
        Ok(()) => Ok(()),
        Err(ZoneFault::Unknown) => Err(unknown_zone(rt.alloc(), field, zone)),
        Err(ZoneFault::Memory) => Err(ImportFault::Memory),
    }
}

/// The zones that columns need, and that of times which have none, from a folder of them.
///
/// # Errors
///
/// `Columns` where one of them is not there; `Memory`.
pub(crate) fn zones_of<R: Files + AllocGlobal>(
    rt: &R,
    folder: Option<&str>,
    zone: Option<&str>,
    columns: &[ColumnWord<'_>],
) -> Result<Zones, ImportFault> {
    let folder = folder.unwrap_or(ZONE_FOLDER);
    let mut zones = Zones::new(rt.alloc());
    for said in columns {
        read_needed(rt, folder, said.field, zone_of(said), &mut zones)?;
    }
    read_needed(rt, folder, ZONE, zone, &mut zones)?;
    Ok(zones)
}

/// Which of two instants a word says is meant.
fn fold_of(alloc: Global, word: Option<&str>) -> Result<Option<Fold>, ImportFault>
    ensures { IfOk result (IsFold (option_map (λ w. w.now) word.entry)) }
{
    match word {
        None => Ok(None),
        Some("first") => Ok(Some(Fold::First)),
        Some("second") => Ok(Some(Fold::Second)),
        Some(word) => Err(refused(
            ImportCode::Options,
            format!(in alloc; "--fold: {word:?} is neither first nor second"),
        )),
    }
}

/// The clocks by which times are read that have no zone: those of a zone that is known, if there is to be one.
///
/// # Errors
///
/// `Options` where a word says none of two instants, or no zone is named for it; `Columns` where the zone is not known;
/// `Memory`.
pub(crate) fn clocks_of<'z>(
    alloc: Global,
    zone: Option<&str>,
    fold: Option<&str>,
    zones: &'z Zones,
) -> Result<Clocks<'z>, ImportFault>
    ensures { IfOk result (IsClocks zones.now.tables.items (option_map (λ w. w.now) zone.entry) (option_map (λ w. w.now) fold.entry)) }
{
    let folded = fold_of(alloc, fold)?;
    match (zone, folded) {
        (None, None) => Ok(Clocks::Zoned),
        (None, Some(_)) => Err(refused(
            ImportCode::Options,
            String::from_str(alloc, "--fold stands without --zone"),
        )),
        (Some(name), _) => match zones.find(name) {
            Some(zone) => Ok(Clocks::Local(zone, folded)),
            None => Err(unknown_zone(alloc, ZONE, name)),
        },
    }
}

/// The columns with the zones in place of their names.
///
/// # Errors
///
/// `Columns` where one of them is not there; `Memory`.
pub(crate) fn placed_columns<'w>(
    alloc: Global,
    columns: &[ColumnWord<'w>],
    zones: &'w Zones,
    clocks: Clocks<'w>,
) -> Result<Vec<Column<'w>>, ImportFault> {
    let mut placed = Vec::new(alloc);
    for said in columns {
        let Some(column) = place_column(said, zones, clocks) else {
            return Err(unknown_zone(alloc, said.field, zone_of(said).unwrap_or("")));
        };
        if placed.push(column).is_err() {
            return Err(ImportFault::Memory);
        }
    }
    Ok(placed)
}
