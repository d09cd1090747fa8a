//! The pages of the faults of an import, and of rows. `scripts/fault_pages` makes this file of docs/FAULTS.md.

use crate::page::FaultPage;

/// The pages of the faults of an import, and of rows, in the order of docs/FAULTS.md.
pub const IMPORT_PAGES: [FaultPage<'static>; 13] = [
    (
        "D1",
        r#"D1 Columns (status 2)

The word COLUMNS of `import` says no columns, has another number of them than the plan, names a zone that the system
does not have, or has a column of names without `--names`; or `--once` names a field that no column is of; or the file
of `@FILE` has more than 1 MiB, or is no UTF-8.

```console
$ streamjob import plan.json new.json at:sec,key calls=calls.csv
D1 Columns "at:sec": a field's name stands alone, or with a number of decimal places, ms, us, ns, name, a comparison as ge:500, or day, month, year, hour or weekday and a zone as day:Europe/Berlin behind a colon
$ streamjob import plan.json new.json at:day:Europe/Berln,key calls=calls.csv
D1 Columns "at": the system has no zone "Europe/Berln"
$ streamjob import plan.json new.json at,key,bytes calls=calls.csv
D1 Columns there are 3, and the plan has 2
$ streamjob import plan.json new.json at,user:name calls=calls.csv
D1 Columns "user": a column of names needs a table of them, by --names
```

Give a column for each number of a record, in the order of the plan's, as [Import](FORMATS.md#import) has them.
"#,
    ),
    (
        "D2",
        r#"D2 Sources (status 2)

The words SOURCE=FILE of `import` are not one for each source of the plan, with a file for each of its partitions, or
several with pluses between them.

```console
$ streamjob import plan.json new.json at,key clicks=calls.csv
D2 Sources "clicks": the plan has no such source
$ streamjob import plan.json new.json at,key calls=a.csv,b.csv
D2 Sources "calls": files are named for 2 partitions, and the plan has 1
$ streamjob import plan.json new.json at,key calls.csv
D2 Sources "calls.csv": a source and its files are SOURCE=FILE[+FILE..][,FILE[+FILE..]..]
$ streamjob import plan.json new.json at,key 'calls=call?.csv,b.csv'
D2 Sources "calls": files are named for 2 partitions, and the plan has 1; no pattern is expanded: name each file, with commas between
```

Name each source once, and its files with commas between; or change `partitions` in the plan. A file's name can have no
comma, and a plus in it is written twice. A pattern as `calls=call*.csv` is expanded by no shell, since it does not
begin a word, and by `import` neither.
"#,
    ),
    (
        "D3",
        r#"D3 Header (status 3)

The header, the first line of a CSV file, lacks the field of a column, or has it twice; or it is not that of the first
CSV file of its partition, where several stand [behind one another](FORMATS.md#files-behind-one-another).

```csv calls.csv
at,user
5,1
```

```console
$ streamjob import plan.json new.json at,key calls=calls.csv
D3 Header calls.csv:1: the header has no field "key": it has "at", "user"
```

```csv first.csv
at,key
5,1
```

```csv next.csv
at,user,key
6,7,1
```

```console
$ streamjob import plan.json new.json at,key calls=first.csv+next.csv
D3 Header next.csv:1: the header is not that of first.csv: field 2 is "user" in place of "key"
```

Spell the column as the header does, in the same case and with the same spaces. Fields are divided by commas; a file
with semicolons or tabs has one field, and the refusal says so. Of many fields it names the first 10. Give the files of
a partition the same fields in the same order.
"#,
    ),
    (
        "D4",
        r#"D4 Width (status 3)

A line has another number of fields than the header: a comma in a text without quotes, or a line that was cut off. Where
a double quote stands alone, the record goes on to the next one, or to the end of the file.

```csv calls.csv
at,key
5,1
6
```

```console
$ streamjob import plan.json new.json at,key calls=calls.csv
D4 Width calls.csv:3: there are 1 fields, and the header has 2
```

```csv quoted.csv
at,key
"5,1
6,2
```

```console
$ streamjob import plan.json new.json at,key calls=quoted.csv
D4 Width quoted.csv:2: there are 1 fields, and the header has 2; the record goes on to line 3: is a quotation mark open in line 2?
```

Put a text with a comma between double quotes, and double a quote within.
"#,
    ),
    (
        "D5",
        r#"D5 Value (status 3)

The text of a field, or of a member, is not what its column says: it is no number, has more decimal places than the
column keeps, does not fit 64 bits, is no time in ISO 8601 with its zone, is finer than milliseconds or in no calendar,
is one that clocks of `--zone` show twice or never where no `--fold` says which is meant, or is an empty name, or one
that is no UTF-8. Nothing is rounded, and an empty field is no number. Of an NDJSON file a member that a column asks for
may also be null, a list or an object, which have no text.

```csv calls.csv
at,key
5,1
6,2.389
```

```ndjson calls.ndjson
{"at":5,"key":null}
```

```console
$ streamjob import plan.json new.json at,key calls=calls.csv
D5 Value calls.csv:3: key: "2.389" has more than 0 decimal places
$ streamjob import plan.json new.json at:ms,key calls=calls.csv
D5 Value calls.csv:2: at: "5" is no time with a zone, as 2026-03-01T12:00:00.5Z
D5 Value calls.csv:3: at: "6" is no time with a zone, as 2026-03-01T12:00:00.5Z
$ streamjob import plan.json new.json at,key calls=calls.ndjson
D5 Value calls.ndjson:1: key: null, a list or an object is no string, number, true or false
```

Ask for more places (`key:3`), or mend the field. A time in ISO 8601 is asked for by `at:ms`, a finer one by `at:us` or
`at:ns`, a text as a number of a
table by `key:name`, and whether a field is just some text by `key:eq:TEXT`. [Import](FORMATS.md#import) has the form of
each kind.
"#,
    ),
    (
        "D6",
        r#"D6 TimeRange (status 3)

A record's time is not from -2^62 to 2^62 - 1.

```csv calls.csv
at,key
4611686018427387904,1
```

```console
$ streamjob import plan.json new.json at,key calls=calls.csv
D6 TimeRange calls.csv:2: at: a time is from -2^62 to 2^62 - 1
```

Count times in a greater unit, or from another moment on.
"#,
    ),
    (
        "D7",
        r#"D7 LateRow (status 3)

By `--bound`, or by the bound of a source that makes its own watermarks, a record is late: its time is not above the
watermark before its entry.

```csv calls.csv
at,key
10,1
9,1
6,1
```

```console
$ streamjob import plan.json new.json at,key calls=calls.csv --bound 2 --rows 1
D7 LateRow calls.csv:4: at: the time 6 is not above the watermark 7
```

Take a greater bound, by the watermark less the time and 1 (here 2 more, 4), leave it out, or have late records written
to a file of their own by `--late FILE`.
"#,
    ),
    (
        "D8",
        r#"D8 Names (status 3)

The file of `--names` is no table of names: CSV without a header, each line a number and a name, with the numbers from 1
on and each name once. Or another import uses it, from its reading to its writing, or something else has changed it
meanwhile: two imports that wrote it one over the other would give one number to two names.

```csv names.csv
1,anna
3,ben
```

```console
$ streamjob import plan.json new.json at,user:name calls=calls.csv --names names.csv
D8 Names names.csv:2: a record is NUMBER,NAME, with the numbers from 1 on and each name once, in UTF-8
```

```text other.csv.lock
in use
```

```console
$ streamjob import plan.json new.json at,user:name calls=calls.csv --names other.csv
D8 Names other.csv: another import uses it; where none does, one was killed: remove other.csv.lock
```

Name a file that `import` wrote, or one that is not there yet. A table whose lines changed gives other numbers than
before. Where it is in use, import again once the other import has ended; remove the file that the refusal names only
where none runs.
"#,
    ),
    (
        "D9",
        r#"D9 Object (status 3)

A line of an NDJSON file, whose name ends in `.ndjson` or `.jsonl`, is no JSON object of UTF-8, or its object lacks the
member of a column, or has it twice.

```ndjson calls.ndjson
{"at":5,"key":1,"note":{"any":["thing",null]}}
{"at":6,"Key":1}
```

```ndjson cut.jsonl
{"at":5,"key":
```

```console
$ streamjob import plan.json new.json at,key calls=calls.ndjson
D9 Object calls.ndjson:2: the object has no member "key"
$ streamjob import plan.json new.json at,key calls=cut.jsonl
D9 Object cut.jsonl:1: the line is no JSON object
```

Each line is one object: a list of them is split by `jq -c '.[]'`, and an object over several lines is joined by
`jq -c .`. Spell the column as the member, in the same case; give a member that may be absent a value of its own before,
as by `jq -c '.key = (.key // 0)'`. By `--bad FILE` such lines are written to a file of their own.
"#,
    ),
    (
        "D10",
        r#"D10 Twice (status 3)

With `--once` a record has the same texts in its fields as one before it in a file of the same source.

```csv calls.csv
at,key
10,1
11,2
10,1
```

```console
$ streamjob import plan.json new.json at,key calls=calls.csv --once at,key
D10 Twice calls.csv:4: the record of calls.csv:2 is the same in the fields of --once
```

If it was delivered twice, have such records written to a file of their own by `--twice FILE`: the first counts. Else
name more fields, until no two records that both count are the same in all of them.
"#,
    ),
    (
        "T1",
        r#"T1 Rows (status 3)

A line is no row as `run` prints it: START, END, KEY and 1 to 8 numbers with single spaces between, each without a plus
or a zero before it, ended by a line feed; or it has another number of numbers than the rows before it, or for `export`
than the plan has aggregates. START, END and KEY have 64 bits, and the others 128.

```text rows.txt
0 10 7 2
10 20 07 1
```

```text wide.txt
0 10 7 2 5
```

```console
$ streamjob diff rows.txt rows.txt
T1 Rows rows.txt:2: a row is START END KEY NUMBER .., whole numbers with single spaces between, as many as in the first
$ streamjob export plan.json wide.txt at,key --header no
T1 Rows wide.txt:1: a row is START END KEY NUMBER .., whole numbers with single spaces between, as many as in the first
$ printf '0 10 7 2' | streamjob diff wide.txt /dev/stdin
T1 Rows /dev/stdin:1: a row is START END KEY NUMBER .., whole numbers with single spaces between, as many as in the first
```

Give the text as `run` printed it; for `diff` both of one plan.
"#,
    ),
    (
        "T2",
        r#"T2 Order (status 3)

A row is not behind the one before it, by START and then KEY, or is at the same.

```text rows.txt
0 10 8 1
0 10 7 2
```

```console
$ streamjob diff rows.txt rows.txt
T2 Order rows.txt:2: the row is not behind the one before it, by its start and then its key
```

`rows` also says it of a row whose start and key another file has a row of.

Sort the rows, as by `sort -n -k1,1 -k3,3`; a start and key that stand there twice are those of several runs.
"#,
    ),
    (
        "T3",
        r#"T3 Cell (status 3)

The table of names has no name of a number that is to be shown as one, or a time, a day, a month or a year is in no year
from 1 to 9999.

```csv names.csv
1,hooli
```

```text rows.txt
0 10 7 2
```

```text late.txt
4611686018427387900 4611686018427387910 7 2
```

```console
$ streamjob export plan.json rows.txt at:ms,user:name --names names.csv --header no
T3 Cell rows.txt:1: user: the table of names has no name of this number
$ streamjob export plan.json late.txt at:ms,key --header no
T3 Cell late.txt:1: start: the time is in no year from 1 to 9999
```

Give the COLUMNS and the table of names that the input was imported with.
"#,
    ),
];
