//! The words of the command line.

ghost use Rattle.std.specs.Prelude.{◌≡◌, IfOk};
ghost use Rattle.clap.specs.Words.{App, Shape, app_of, new_rule, with_subcommand};
ghost use Rattle.clap.specs.Simple.{new_shape};
ghost use Rattle.command_line.specs.Words.{AddsRule, IsCommand};
ghost use Rattle.command_line.specs.Words as shapes;

use crate::part_words::split_words;
use crate::table_words::{diff_words, export_words, rows_words};
use clap::{Arg, ArgAction, Command};
use std::alloc::{AllocError, Global};

/// A command without words.
pub(crate) fn named<'a>(alloc: Global, name: &'a str, about: &'a str, help: &'a str) -> Command<'a>
    ensures { IsCommand (new_shape name.now) result }
{
    Command::new(alloc, name).about(about).after_help(help)
}

/// With one word more, that has to be there.
pub(crate) fn required<'a>(
    alloc: Global,
    command: Command<'a>,
    name: &'a str,
    help: &'a str,
) -> Result<Command<'a>, AllocError>
    ensures { IfOk result (λ c. AddsRule (shapes.required_rule name.now) command.entry c) }
{
    command.arg(Arg::new(alloc, name).required(true).help(help))
}

/// With one word more, that may be left out.
fn optional<'a>(
    alloc: Global,
    command: Command<'a>,
    name: &'a str,
    help: &'a str,
) -> Result<Command<'a>, AllocError>
    ensures { IfOk result (λ c. AddsRule (new_rule name.now) command.entry c) }
{
    command.arg(Arg::new(alloc, name).help(help))
}

/// With one word more, that has to be there and may come several times.
pub(crate) fn several<'a>(
    alloc: Global,
    command: Command<'a>,
    name: &'a str,
    help: &'a str,
) -> Result<Command<'a>, AllocError>
    ensures { IfOk result (λ c. AddsRule (shapes.several_rule name.now) command.entry c) }
{
    let arg = Arg::new(alloc, name).required(true).help(help);
    command.arg(arg.action(ArgAction::Append))
}

/// With one option more, which has a value.
pub(crate) fn option<'a>(
    alloc: Global,
    command: Command<'a>,
    name: &'a str,
    value: &'a str,
    help: &'a str,
) -> Result<Command<'a>, AllocError>
    ensures { IfOk result (λ c. AddsRule (shapes.option_rule name.now) command.entry c) }
{
    let arg = Arg::new(alloc, name).long(name).value_name(value);
    command.arg(arg.help(help))
}

/// With one option more, which is there or not.
pub(crate) fn flag<'a>(
    alloc: Global,
    command: Command<'a>,
    name: &'a str,
    help: &'a str,
) -> Result<Command<'a>, AllocError>
    ensures { IfOk result (λ c. AddsRule (shapes.flag_rule name.now) command.entry c) }
{
    let arg = Arg::new(alloc, name).long(name).help(help);
    command.arg(arg.action(ArgAction::SetTrue))
}

pub(crate) const PLAN: &str =
    "JSON file of the job: sources, filters, and one window with its aggregates";

pub(crate) const INPUT: &str =
    "JSON file of the records: for each source its partitions, with rows and watermarks";

const SCALE: &str = "JSON file of the scale: a ring's capacity and each operator's parallelism";

const LEGS: &str = "JSON file of the legs: for each its scale, and where it stops";

const PARALLELISM: &str =
    "How many subtasks each operator has, 1 to 64 (1); a source no more than partitions; not with LEGS";

const RUN_RECEIPT: &str =
    "File to write the receipt to, which tells of what was read and printed; not with LEGS";

const NAMES: &str = "File of the table of names, of which the receipt tells too";

const RUN: &str = "\
Each row is a line `START END KEY NUMBER ..`: a window of time from START up to END, a key,
and what the plan's aggregates give for the key's records in the window. Rows come in the
order of START and KEY.

With LEGS the job runs in legs, each at its own scale and from the savepoint of the one before;
the rows are the same. Where the last leg stops at a cut, they are those that are due there.
Each subtask is a thread: with --parallelism the job runs in more of them, and prints the same.

Example: streamjob run plan.json input.json --parallelism 4
Page: docs/GUIDE.md, and docs/FORMATS.md for the plan, the input and the legs";

const PROGRAM: &str = "\
All files are read before anything is done. A file may be /dev/stdin, once in a command: what a
pipe brings.

Exit status: 0 done; 2 words that are not understood, or help; 3 a file that cannot be read or
written, a plan, input, scale, list of legs, choices or savepoint that is refused, or a cut that a
leg cannot stop at; 4 no memory, or no thread. Standard error says what is refused, and
`streamjob explain CODE` what to do.

Example: streamjob run plan.json input.json
Page: docs/GUIDE.md";

fn run_words<'a>(alloc: Global) -> Result<Command<'a>, AllocError>
    ensures { IfOk result (λ c. IsCommand shapes.run_shape c) }
{
    let command = named(
        alloc,
        "run",
        "Run a plan on an input and print its rows",
        RUN,
    );
    let command = required(alloc, command, "PLAN", PLAN)?;
    let command = required(alloc, command, "INPUT", INPUT)?;
    let command = optional(alloc, command, "LEGS", LEGS)?;
    let command = option(alloc, command, "parallelism", "N", PARALLELISM)?;
    let command = option(alloc, command, "receipt", "FILE", RUN_RECEIPT)?;
    option(alloc, command, "names", "FILE", NAMES)
}

const CHOICES: &str =
    "JSON file of the choices: for each leg a list of numbers that pick its steps";

const SIMULATE: &str = "\
It prints what `run` prints with LEGS, whatever the choices are. Before each step the steps that can
be made are put in order; of K of them choice C makes the one at place C modulo K, from 0. After the
last choice of a leg the steps are those that `run` makes.

Example: streamjob simulate plan.json input.json legs.json choices.json
Page: docs/FORMATS.md, under List of legs and Choices";

fn simulate_words<'a>(alloc: Global) -> Result<Command<'a>, AllocError>
    ensures { IfOk result (λ c. IsCommand shapes.simulate_shape c) }
{
    let about = "Run a job in legs by an order of steps that you choose, and print its rows";
    let command = named(alloc, "simulate", about, SIMULATE);
    let command = required(alloc, command, "PLAN", PLAN)?;
    let command = required(alloc, command, "INPUT", INPUT)?;
    let command = required(alloc, command, "LEGS", LEGS)?;
    required(alloc, command, "CHOICES", CHOICES)
}

const LEG: &str = "\
A leg is a part of a job: it begins with nothing or with a savepoint, and goes to a cut or to the
end of the input. It prints the rows, as `run` does, whose windows become due on the way. A leg
that stops leaves a savepoint, which is written before the rows are printed. CUT has how many
entries lie before it in each partition, with commas between the partitions of a source and
slashes between sources. With --saves it takes savepoints on its way, at cuts with + between them, and
goes on; where memory runs out behind one of them, it prints the rows up to the last that is complete,
and leaves that savepoint. With --stop-file it stops where it has come once that file is there, which
it looks for ten times a second; one that was at the end by then leaves no savepoint. A receipt has
digests of the plan, of the entries before the cut, of the rows and of the table of names; with --since
a leg goes on only where plan, entries and names are those of the receipt.

Example: streamjob leg plan.json input.json scale.json --stop 2,2/5 --save savepoint
Page: docs/FORMATS.md, under Scale, Cut and Stop file";

/// The files that a leg always reads.
fn leg_files<'a>(alloc: Global) -> Result<Command<'a>, AllocError>
    ensures { IfOk result (λ c. IsCommand shapes.leg_files_shape c) }
{
    let command = named(
        alloc,
        "leg",
        "Run one leg of a job at a scale and print its rows",
        LEG,
    );
    let command = required(alloc, command, "PLAN", PLAN)?;
    let command = required(alloc, command, "INPUT", INPUT)?;
    required(alloc, command, "SCALE", SCALE)
}

/// The same with how it begins and stops.
fn leg_stops<'a>(alloc: Global) -> Result<Command<'a>, AllocError>
    ensures { IfOk result (λ c. IsCommand shapes.leg_stops_shape c) }
{
    let command = leg_files(alloc)?;
    let command = option(
        alloc,
        command,
        "from",
        "FILE",
        "File of the savepoint to go on from",
    )?;
    let command = option(
        alloc,
        command,
        "saves",
        "CUTS",
        "Cuts at which the leg takes savepoints on its way, with + between them, and goes on",
    )?;
    let command = option(
        alloc,
        command,
        "stop",
        "CUT",
        "Cut to stop at; without it the leg goes to the end of the input",
    )?;
    let command = option(
        alloc,
        command,
        "stop-file",
        "FILE",
        "File that stops the leg where it is, once it is there; with --save, and without --stop and --saves",
    )?;
    option(
        alloc,
        command,
        "save",
        "FILE",
        "File to write the savepoint to: that of the stop, or else the last one on the way",
    )
}

/// The same with its receipts.
fn leg_words<'a>(alloc: Global) -> Result<Command<'a>, AllocError>
    ensures { IfOk result (λ c. IsCommand shapes.leg_shape c) }
{
    let command = leg_stops(alloc)?;
    let command = option(
        alloc,
        command,
        "since",
        "FILE",
        "Receipt of the leg that left the savepoint: what it tells of has to be as it was; with --from",
    )?;
    let command = option(
        alloc,
        command,
        "receipt",
        "FILE",
        "File to write the receipt to, which tells of what was read before the cut, and printed",
    )?;
    option(
        alloc,
        command,
        "names",
        "FILE",
        "File of the table of names, of which receipts tell too",
    )
}

const LAYOUT: &str = "\
Lines come in this order: `stage S PARALLELISM UID ..` for each stage of chained operators, with
`(sink)` for the sink; `edge A B forward|rebalance|group` for each edge from stage A to stage B;
`partitions S I P ..` for subtask I of each source's stage S; `groups S I FIRST LAST` for each
subtask of the window's stage.

Example: streamjob layout plan.json scale.json
Page: docs/FORMATS.md, under Layout";

const CUTS: &str = "\
Without an option it prints a line for each partition: `source UID P ENTRIES RECORDS LEAST GREATEST
WATERMARK`, with the least and the greatest time of its records, a hyphen each where it has none, and
its greatest watermark. With --until it prints the first cut at which every window that ends by TIME
is due, and with --open the last cut before which each partition has an entry left, so that a job which
stops there goes on once more entries stand behind. A cut is a word that `leg --stop` takes.

Example: streamjob cuts plan.json input.json --until 2026-10-21T02:00:00Z
Page: docs/FORMATS.md, under Cuts";

fn cuts_words<'a>(alloc: Global) -> Result<Command<'a>, AllocError>
    ensures { IfOk result (λ c. IsCommand shapes.cuts_shape c) }
{
    let about = "Print how far the partitions of an input go, or a cut of it";
    let command = named(alloc, "cuts", about, CUTS);
    let command = required(alloc, command, "PLAN", PLAN)?;
    let command = required(alloc, command, "INPUT", INPUT)?;
    let command = option(
        alloc,
        command,
        "until",
        "TIME",
        "A number, or a time in ISO 8601 with its zone, in milliseconds since 1970",
    )?;
    flag(
        alloc,
        command,
        "open",
        "Print the last cut that leaves an entry of each partition; not with --until",
    )
}

fn layout_words<'a>(alloc: Global) -> Result<Command<'a>, AllocError>
    ensures { IfOk result (λ c. IsCommand shapes.layout_shape c) }
{
    let about = "Print the stages, edges, partitions and key groups of a plan at a scale";
    let command = named(alloc, "layout", about, LAYOUT);
    let command = required(alloc, command, "PLAN", PLAN)?;
    required(alloc, command, "SCALE", SCALE)
}

const CHECK: &str = "\
It prints nothing of files that are right. Of the first that is refused, in the order plan, input, scale,
it prints each place, up to 20, at which the requirement that standard error names is not met:
`FILE:LINE:COLUMN: what stands there, and what has to`, and then those of later requirements, with `also`
and their fault before the sentence. Of each file it then warns, up to 20 times, of
members that stand twice, of which the last counts, of watermarks that are below one before them, and of
partitions whose watermarks never rise.

With --from it prints why no leg can go on from that savepoint over this input, `FILE: the reason` for
each place, and with --stop why none can stop at that cut, `--stop CUT: the reason`. Nothing is run.

Example: streamjob check plan.json input.json scale.json
Page: docs/FORMATS.md, under Plan, Input and Scale";

/// The files of a check.
fn check_files<'a>(alloc: Global) -> Result<Command<'a>, AllocError>
    ensures { IfOk result (λ c. IsCommand shapes.check_files_shape c) }
{
    let about = "Print the places at which a plan, an input or a scale is refused";
    let command = named(alloc, "check", about, CHECK);
    let command = required(alloc, command, "PLAN", PLAN)?;
    let command = optional(alloc, command, "INPUT", INPUT)?;
    let command = optional(alloc, command, "SCALE", SCALE)?;
    option(
        alloc,
        command,
        "scale",
        "SCALE",
        "JSON file of the scale, where no word names it",
    )
}

/// The same with the options of a leg.
fn check_words<'a>(alloc: Global) -> Result<Command<'a>, AllocError>
    ensures { IfOk result (λ c. IsCommand shapes.check_shape c) }
{
    let command = check_files(alloc)?;
    let command = option(
        alloc,
        command,
        "from",
        "FILE",
        "File of the savepoint that a leg is to go on from; with INPUT",
    )?;
    let command = option(
        alloc,
        command,
        "stop",
        "CUT",
        "Cut that it is to stop at; with INPUT",
    )?;
    option(
        alloc,
        command,
        "save",
        "FILE",
        "File that its savepoint is to be written to; nothing is written",
    )
}

const IMPORT: &str = "\
Each FILE is CSV with a header, or, where its name ends in .ndjson or .jsonl, a JSON object a line, and
becomes a partition of its source; INPUT is written once all of them are read. COLUMNS has a field of the
header, or a member of the objects, for each number of a record, in the plan's order, with commas
between: `bytes` is a whole number; `power:3` a decimal times 1000, and `price*quantity:2` a product times
100; `at:ms` a time in ISO 8601 with its zone, in milliseconds since 1970, and `at:day:Europe/Berlin` the
day there, or month, year, hour, weekday; `customer:name` the number of a name in the file of --names, and
`customer+region:name` that of both together; `status:ge:500` is 1 where the number is at least 500, else
0, and `fuel:eq:diesel` where the text is that. `geo.country` is a member of a member. `@FILE` reads the
columns from a file, a line each.

Example: streamjob import plan.json input.json time:ms,customer:name,bytes --names names.csv api=0.csv,1.csv
Page: docs/FORMATS.md, under Import";

/// The words of an import that have to be there.
fn import_files<'a>(alloc: Global) -> Result<Command<'a>, AllocError>
    ensures { IfOk result (λ c. IsCommand shapes.import_files_shape c) }
{
    let about = "Write an input of a plan from CSV or NDJSON files";
    let command = named(alloc, "import", about, IMPORT);
    let command = required(alloc, command, "PLAN", PLAN)?;
    let command = required(alloc, command, "INPUT", "File to write the input to")?;
    let command = required(
        alloc,
        command,
        "COLUMNS",
        "Fields of the files that make a record, with commas between",
    )?;
    several(
        alloc,
        command,
        "SOURCE",
        "SOURCE=FILE[,FILE..]: a source of the plan, and its files, one for each partition, or several with pluses between",
    )
}

/// The same with two of its options.
fn import_names<'a>(alloc: Global) -> Result<Command<'a>, AllocError>
    ensures { IfOk result (λ c. IsCommand shapes.import_names_shape c) }
{
    let command = import_files(alloc)?;
    let command = option(
        alloc,
        command,
        "names",
        "FILE",
        "File of the table of names, read where it is there, and written",
    )?;
    option(
        alloc,
        command,
        "bound",
        "N",
        "How far behind the greatest time of earlier entries a record may come; without it, only sources with a bound in the plan have watermarks",
    )
}

/// The same with those of late records and of entries.
fn import_late<'a>(alloc: Global) -> Result<Command<'a>, AllocError>
    ensures { IfOk result (λ c. IsCommand shapes.import_late_shape c) }
{
    let command = import_names(alloc)?;
    let command = option(
        alloc,
        command,
        "late",
        "FILE",
        "File to write late records to; without it the first is refused",
    )?;
    let command = option(
        alloc,
        command,
        "rows",
        "N",
        "Most rows of an entry, 1 to 4096 (4096); watermarks stand between entries, so 1 looks at each record",
    )?;
    flag(
        alloc,
        command,
        "align",
        "Round watermarks down to the ends of windows: a record is late where its windows are closed",
    )
}

/// The same with those of records that are no rows.
fn import_aside<'a>(alloc: Global) -> Result<Command<'a>, AllocError>
    ensures { IfOk result (λ c. IsCommand shapes.import_aside_shape c) }
{
    let command = import_late(alloc)?;
    let command = option(
        alloc,
        command,
        "bad",
        "FILE",
        "File to write records to that give no row; without it the first of them are told, and nothing is written",
    )?;
    let command = option(
        alloc,
        command,
        "once",
        "FIELDS",
        "Fields with commas between: of records that are the same in them the first counts",
    )?;
    option(
        alloc,
        command,
        "twice",
        "FILE",
        "File to write the others of those to; without it the first is refused",
    )
}

/// The same with those of times that have no zone.
fn import_zone<'a>(alloc: Global) -> Result<Command<'a>, AllocError>
    ensures { IfOk result (λ c. IsCommand shapes.import_zone_shape c) }
{
    let command = import_aside(alloc)?;
    let command = option(
        alloc,
        command,
        "zone",
        "ZONE",
        "Zone of the times that have none, as Europe/Berlin",
    )?;
    option(
        alloc,
        command,
        "fold",
        "WORD",
        "Which instant of a time that its clocks show twice or never: first or second; without it the record is bad",
    )
}

/// The same with that of the parts of the input.
fn import_parts<'a>(alloc: Global) -> Result<Command<'a>, AllocError>
    ensures { IfOk result (λ c. IsCommand shapes.import_parts_shape c) }
{
    let command = import_zone(alloc)?;
    option(
        alloc,
        command,
        "ranges",
        "N",
        "Write N inputs INPUT.0, INPUT.1 .. in place of INPUT, as `split` deals it out",
    )
}

fn import_words<'a>(alloc: Global) -> Result<Command<'a>, AllocError>
    ensures { IfOk result (λ c. IsCommand shapes.import_shape c) }
{
    let command = import_parts(alloc)?;
    let command = option(
        alloc,
        command,
        "report",
        "FILE",
        "File to write to how many records of each file went where",
    )?;
    let command = option(
        alloc,
        command,
        "zones",
        "FOLDER",
        "Folder of the time zones (/usr/share/zoneinfo)",
    )?;
    let command = option(
        alloc,
        command,
        "separator",
        "C",
        "What stands between the fields of CSV: one character, or `tab` (,)",
    )?;
    option(
        alloc,
        command,
        "decimal",
        "C",
        "What stands for the point of decimals in CSV: a point or a comma (.)",
    )
}

const SHOW: &str = "\
Lines come in this order: `number N`; `max M`, the number of key groups; `source UID P OFFSET
WATERMARK` for each partition P; `window UID`; `entry GROUP START KEY COUNT NUMBER ..` for each
window and key that has not fired. With --group it prints the `entry` lines of that key group alone,
none where it has none, and reads of the savepoint no more than it has to. `group` prints the group of
a key.

Example: streamjob show savepoint --group 86
Page: docs/FORMATS.md, under Show";

fn show_words<'a>(alloc: Global) -> Result<Command<'a>, AllocError>
    ensures { IfOk result (λ c. IsCommand shapes.show_shape c) }
{
    let command = named(alloc, "show", "Print what a savepoint holds", SHOW);
    let command = required(alloc, command, "SAVEPOINT", "File of the savepoint")?;
    option(
        alloc,
        command,
        "group",
        "G",
        "Key group, 0 to 32767: print its entries alone; not of a savepoint without an index",
    )
}

const KEY: &str = "Key, a whole number of 64 bits (a negative one after --)";

const GROUP: &str = "\
It prints one line `GROUP OWNER`. Groups are those of Apache Flink for a key of 64 bits.

Example: streamjob group -- -1 128 4
Page: docs/FORMATS.md, under Group";

fn group_words<'a>(alloc: Global) -> Result<Command<'a>, AllocError>
    ensures { IfOk result (λ c. IsCommand shapes.group_shape c) }
{
    let about = "Print the key group of a key and the subtask that owns the group";
    let command = named(alloc, "group", about, GROUP);
    let command = required(alloc, command, "KEY", KEY)?;
    let command = required(alloc, command, "MAX", "Number of key groups, 1 to 32768")?;
    required(
        alloc,
        command,
        "PAR",
        "Number of subtasks, 1 to 64 and at most MAX",
    )
}

const EXPLAIN: &str = "\
A code is the first word of a refusal on standard error, as I5, in capital or small letters, or
`memory`.

Example: streamjob explain I5
Page: docs/FAULTS.md, which has them all";

fn explain_words<'a>(alloc: Global) -> Result<Command<'a>, AllocError>
    ensures { IfOk result (λ c. IsCommand shapes.explain_shape c) }
{
    let about = "Print what a refusal means, a text that gives it, and what to do";
    let command = named(alloc, "explain", about, EXPLAIN);
    required(alloc, command, "CODE", "Code of the refusal")
}

const VERSION: &str = "\
The second line names the toolchain that proved and built the program.

Example: streamjob version
Page: README.md, under What is trusted";

fn version_words<'a>(alloc: Global) -> Command<'a>
    ensures { IsCommand shapes.version_shape result }
{
    named(
        alloc,
        "version",
        "Print the version of the program and of its toolchain",
        VERSION,
    )
}

/// The program's own words, without its commands.
fn program_words<'a>(alloc: Global) -> Command<'a>
    ensures { app_of result ≡ shapes.top }
{
    let about = "Count and sum records by key, in windows of event time";
    named(alloc, "streamjob", about, PROGRAM).subcommand_required(true)
}

/// A command with another below it, where both could be made.
// Here alone is a command dropped where the other could not be made: to check that takes long, where several stand.
fn with<'a>(
    command: Result<Command<'a>, AllocError>,
    below: Result<Command<'a>, AllocError>,
) -> Result<Command<'a>, AllocError>
    ensures { (app : App) (shape : Shape) → IfOk command.entry (λ c. app_of c ≡ app) → IfOk below.entry (λ c. IsCommand shape c)
        → IfOk result (λ c. app_of c ≡ with_subcommand app shape) }
{
    command?.subcommand(below?)
}

/// The program with the commands that run a job.
fn with_jobs<'a>(alloc: Global) -> Result<Command<'a>, AllocError>
    ensures { IfOk result (λ c. app_of c ≡ shapes.jobs) }
{
    let command = with(Ok(program_words(alloc)), run_words(alloc));
    let command = with(command, simulate_words(alloc));
    with(command, leg_words(alloc))
}

/// The same with the commands on plans and inputs.
fn with_texts<'a>(alloc: Global) -> Result<Command<'a>, AllocError>
    ensures { IfOk result (λ c. app_of c ≡ shapes.texts) }
{
    let command = with(with_jobs(alloc), import_words(alloc));
    let command = with(command, split_words(alloc));
    let command = with(command, cuts_words(alloc));
    let command = with(command, layout_words(alloc));
    with(command, check_words(alloc))
}

/// The same with the commands on texts of rows.
fn with_tables<'a>(alloc: Global) -> Result<Command<'a>, AllocError>
    ensures { IfOk result (λ c. app_of c ≡ shapes.tables) }
{
    let command = with(with_texts(alloc), export_words(alloc));
    let command = with(command, diff_words(alloc));
    with(command, rows_words(alloc))
}

/// The same with those that show a savepoint and a key's group.
fn with_views<'a>(alloc: Global) -> Result<Command<'a>, AllocError>
    ensures { IfOk result (λ c. app_of c ≡ shapes.views) }
{
    let command = with(with_tables(alloc), show_words(alloc));
    with(command, group_words(alloc))
}

/// The command and its subcommands.
///
/// # Errors
///
/// Only where memory runs out.
pub fn command<'a>(alloc: Global) -> Result<Command<'a>, AllocError>
    ensures { IfOk result (λ c. app_of c ≡ shapes.program) }
{
    with_views(alloc)?
        .subcommand(explain_words(alloc)?)?
        .subcommand(version_words(alloc))
}
