//! An import of files.

ghost use Rattle.std.specs.Prelude.{◌≡◌, ◌<◌, ℕ, List, Option, [], IfOk, OnOk, map};
ghost use Rattle.entry_texts.specs.Partitions.{Row};
ghost use Rattle.import_copies.specs.Copies.{CopiesAll, CopiesWhole, WritesSorted};
ghost use Rattle.known_records.specs.Known.{keys_in, columns_in};
ghost use Rattle.import_copies.specs.Streams.{WritesRows, rule_of, dealing_of};

use crate::copying::copy_records;
use crate::ledger::Ledger;
use crate::partition::write_end;
use crate::row_texts::RowTexts;
use crate::taking::Source;
use dealt_texts::Dealing;
use decimal_texts::DecimalPoint;
use import_columns::Column;
use import_entries::EntryRule;
use import_fates::FateCounts;
use import_tellings::{refused_file, refused_row};
use import_words::{ImportFault, files_of};
use imports::{FirstHeader, Records, RowFault, Separator, fields_of};
use known_records::KnownRecords;
use name_table::NameTable;
use plan_model::SourceSpec;
use std::alloc::Global;
use std::fs::File;
use std::hash::RandomState;
use std::io;
use std::io::{ErrorKind, Read, Write};
use std::rt::Files;

/// What tells the records of a source from one another.
#[derive(Clone, Copy)]
pub struct OnceRule<'i> {
    /// The columns whose fields do, counted from 0.
    pub columns: &'i [usize],
    /// What hashes start from.
    pub state: RandomState,
}

/// What an import is to do.
#[derive(Clone, Copy)]
pub struct ImportRule<'i> {
    /// The sources of the plan.
    pub sources: &'i [SourceSpec],
    /// The words that name their files.
    pub words: &'i [&'i str],
    /// What each number of a row is.
    pub columns: &'i [Column<'i>],
    /// Which of them is the time.
    pub time: usize,
    /// What stands between the fields of CSV.
    pub separator: Separator,
    /// What stands for the point of its decimals.
    pub point: DecimalPoint,
    /// What is asked of the entries.
    pub entries: EntryRule,
    /// What tells records from one another, if anything does: of those that are the same the first is a row.
    pub once: Option<OnceRule<'i>>,
    /// How the rows are dealt out to the parts of the input, if they are: then there is a stream for each part, and
    /// else one.
    pub dealing: Option<Dealing>,
}

impl<'i> ImportRule<'i> {
    /// The rule for a source: one that makes its own watermarks has them by its bound.
    fn of_source(self, source: &SourceSpec) -> ImportRule<'i> {
        ImportRule {
            sources: self.sources,
            words: self.words,
            columns: self.columns,
            time: self.time,
            separator: self.separator,
            point: self.point,
            entries: self.entries.of_source(source.bound),
            once: self.once,
            dealing: self.dealing,
        }
    }
}

fn open_fault(alloc: Global, path: &str, error: &io::Error) -> ImportFault {
    match error.kind() {
        ErrorKind::OutOfMemory => ImportFault::Memory,
        _ => refused_file(alloc, path),
    }
}

/// Writes the same to each stream.
fn put<W: Write>(outs: &mut [W], text: &str) -> Result<(), ImportFault> {
    for place in 0..outs.len() {
        if outs[place].write_all(text.as_bytes()).is_err() {
            return Err(ImportFault::Write);
        }
    }
    Ok(())
}

/// How many entries of so many rows at most begin with rows that come behind others.
fn entries_begun(before: u64, rows: u64, most_rows: u32) -> u64
    requires { 0 < most_rows }
{
    let most_rows = u64::from(most_rows);
    let all = before.saturating_add(rows).div_ceil(most_rows);
    all.saturating_sub(before.div_ceil(most_rows))
}

/// Copies the records of an opened file behind those of a partition.
fn copy_rows<'f, R: Read + Drop, W: Write, L: Write + Drop>(
    alloc: Global,
    rule: ImportRule<'_>,
    file: &'f str,
    rows: &mut Records<R>,
    first: &mut Option<FirstHeader<'f>>,
    partition: &mut RowTexts,
    known: &mut Option<KnownRecords>,
    names: &mut NameTable,
    ledger: &mut Ledger<L>,
    outs: &mut [W],
) -> Result<FateCounts, RowFault>
    ensures rule { rule_of partition.new ≡ rule_of partition.old }
    ensures dealing { dealing_of partition.new ≡ dealing_of partition.old }
    ensures sorts { (before : List Row) (start : List (Option (List ℕ))) → WritesRows before start (map W.contents outs.old) partition.old
        → IfOk result (λ counts. CopiesWhole R.remaining rule.entry (columns_in known.old) rows.old (rule_of partition.old) (keys_in known.old) before start (map W.contents outs.new) known.new partition.new counts) }
{
    let point = rows.point_by(rule.point);
    let fields = fields_of(alloc, rule.columns)?;
    let stand = rows.begin(alloc, &fields, file, first)?;
    let source = Source {
        file,
        columns: rule.columns,
        fields: &fields,
        picks: &stand.picks,
        places: &stand.places,
        point,
        time: rule.time,
    };
    copy_records(alloc, rows, source, names, known, partition, ledger, outs)
}

/// How many records of a file went where, and how many lines it has.
#[derive(Clone, Copy)]
struct FileCounts {
    counts: FateCounts,
    lines: u64,
}

/// Copies the records of a file behind those of a partition.
fn copy_file<'f, R: Files + AllocGlobal, W: Write, L: Write + Drop>(
    rt: &R,
    rule: ImportRule<'_>,
    file: &'f str,
    first: &mut Option<FirstHeader<'f>>,
    partition: &mut RowTexts,
    known: &mut Option<KnownRecords>,
    names: &mut NameTable,
    ledger: &mut Ledger<L>,
    outs: &mut [W],
) -> Result<FileCounts, ImportFault>
    ensures rule { rule_of partition.new ≡ rule_of partition.old }
    ensures dealing { dealing_of partition.new ≡ dealing_of partition.old }
    ensures sorts { (before : List Row) (start : List (Option (List ℕ))) → WritesRows before start (map W.contents outs.old) partition.old
        → IfOk result (λ told. CopiesAll (rule_of partition.old) (keys_in known.old) before start (map W.contents outs.new) known.new partition.new told.counts) }
{
    let opened = match File::open(rt, file) {
        Ok(opened) => opened,
        Err(error) => return Err(open_fault(rt.alloc(), file, &error)),
    };
    let Ok(mut rows) = Records::new(rt.alloc(), file, opened, rule.separator) else {
        return Err(ImportFault::Memory);
    };
    match copy_rows(
        rt.alloc(),
        rule,
        file,
        &mut rows,
        first,
        partition,
        known,
        names,
        ledger,
        outs,
    ) {
        Ok(counts) => Ok(FileCounts {
            counts,
            lines: rows.lines(),
        }),
        Err(fault) => Err(refused_row(
            rt.alloc(),
            file,
            rule.columns,
            rule.time,
            &rows,
            first.as_ref(),
            fault,
        )),
    }
}

/// Writes the records of files, behind one another, as a partition: those that are rows, in order, each to the stream
/// of the part that it goes to, or all to the one stream. Each file is open only while it is read.
///
/// # Errors
///
/// What of a whole file is refused first; `Write`; `Memory`. Some of the text may have been written then.
pub fn import_partition<R: Files + AllocGlobal, W: Write, L: Write + Drop>(
    rt: &R,
    rule: ImportRule<'_>,
    files: &[String],
    known: &mut Option<KnownRecords>,
    names: &mut NameTable,
    ledger: &mut Ledger<L>,
    outs: &mut [W],
) -> Result<(), ImportFault>
    ensures { OnOk result (WritesSorted rule.entry.entries rule.entry.dealing (keys_in known.old) (map W.contents outs.old) (map W.contents outs.new) known.new) }
{
    let mut partition = RowTexts::new(rt.alloc(), rule.entries, rule.dealing)?;
    let mut first = None;
    let mut before = 0u64;
    for file in files {
        let file = file.as_str();
        ledger.begin_file(file)?;
        let told = copy_file(
            rt,
            rule,
            file,
            &mut first,
            &mut partition,
            known,
            names,
            ledger,
            outs,
        )?;
        let rows = told.counts.written;
        let entries = entries_begun(before, rows, rule.entries.most_rows);
        ledger.end_file(file, told.lines, told.counts, entries)?;
        before = before.saturating_add(rows);
    }
    match write_end(&mut partition, outs) {
        Ok(()) => Ok(()),
        Err(RowFault::Memory) => Err(ImportFault::Memory),
        Err(_) => Err(ImportFault::Write),
    }
}

/// No records yet, where records are to be told from one another.
fn known_records(
    alloc: Global,
    once: Option<OnceRule<'_>>,
) -> Result<Option<KnownRecords>, ImportFault> {
    match once {
        Some(once) => {
            let columns = Vec::from_slice(alloc, once.columns)?;
            Ok(Some(KnownRecords::new(alloc, once.state, columns)))
        }
        None => Ok(None),
    }
}

/// Writes the partitions of a source.
fn import_source<R: Files + AllocGlobal, W: Write, L: Write + Drop>(
    rt: &R,
    rule: ImportRule<'_>,
    source: &SourceSpec,
    names: &mut NameTable,
    ledger: &mut Ledger<L>,
    outs: &mut [W],
) -> Result<(), ImportFault> {
    let partitions = files_of(rt.alloc(), rule.words, source)?;
    let mut known = known_records(rt.alloc(), rule.once)?;
    ledger.begin_source();
    let mut is_first = true;
    for files in &partitions {
        put(outs, if is_first { "[" } else { "," })?;
        import_partition(rt, rule, files, &mut known, names, ledger, outs)?;
        is_first = false;
    }
    put(outs, "]")
}

/// Writes the sources of an input.
fn import_sources<R: Files + AllocGlobal, W: Write, L: Write + Drop>(
    rt: &R,
    rule: ImportRule<'_>,
    names: &mut NameTable,
    ledger: &mut Ledger<L>,
    outs: &mut [W],
) -> Result<(), ImportFault> {
    let mut is_first = true;
    for source in rule.sources {
        put(outs, if is_first { "{\"" } else { ",\"" })?;
        put(outs, source.uid.as_str())?;
        put(outs, "\":")?;
        import_source(rt, rule.of_source(source), source, names, ledger, outs)?;
        is_first = false;
    }
    put(outs, "}\n")
}

/// Writes an input of files: for each source of a plan its partitions, as words that
/// [`check_sources`](import_words::check_sources) takes name them. Records that are no rows go where the ledger has a
/// place for them. Where rows are dealt out, there is a stream for each part, and each gets the text of its part; else
/// there is one stream.
///
/// # Errors
///
/// Where the ledger has no place for a record, the first of such records, and how many more there are; what of a whole
/// file is refused first; `Write`; `Memory`. Some of the text may have been written then.
pub fn import_files<R: Files + AllocGlobal, W: Write, L: Write + Drop>(
    rt: &R,
    rule: ImportRule<'_>,
    names: &mut NameTable,
    ledger: &mut Ledger<L>,
    outs: &mut [W],
) -> Result<(), ImportFault> {
    let end = import_sources(rt, rule, names, ledger, outs);
    ledger.answer(end)
}
