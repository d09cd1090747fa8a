//! The pages of the faults of a savepoint, of going on from one, and of a receipt. `scripts/fault_pages` makes this
//! file of docs/FAULTS.md.

use crate::page::FaultPage;

/// The pages of the faults of a savepoint, of going on from one, and of a receipt, in the order of docs/FAULTS.md.
pub const SAVEPOINT_PAGES: [FaultPage<'static>; 22] = [
    (
        "V1",
        r#"V1 Magic (status 3)

The first four bytes are neither `WSP2` nor `WSP1`: the file is no savepoint, as a plan in its place. `show --group`
says it of `WSP1` too: a savepoint that begins so has no index to find a key group by.

```hex savepoint
7b 22 63 6f                # {"co
```

Look at the name of the file. Where there is no index, `show` alone prints all entries, those of key group 86 as lines
that begin with `entry 86`.
"#,
    ),
    (
        "V2",
        r#"V2 Truncated (status 3)

A field passes the end of the bytes: the file breaks off. A file of fewer than four bytes is one, and so is an empty
one.

```hex savepoint
57 53 50                   # WSP
```

Copy the file again, and compare its length.
"#,
    ),
    (
        "V3",
        r#"V3 Trailing (status 3)

Bytes stand after the last field.

```hex savepoint
57 53 50 32                # WSP2
00 00 00 00 00 00 00 01    # number 1
00 00                      # a plan record of no bytes
00 80                      # 128 key groups
01                         # one source
01 73 01                   # its uid `s`, and one partition
00 00 00 00 00 00 00 02    # offset 2
00 00 00 00 00 00 00 09    # watermark 9
01 77                      # the window's uid `w`
01 00                      # one aggregate, a count
00 00                      # no key groups
00                         # one byte more
```

Copy the file again; it may have been joined with another.
"#,
    ),
    (
        "V4",
        r#"V4 Order (status 3)

The uid of a source, a key group, or the start and key of an entry is not above the one before, or a key group has no
entry.

```hex savepoint
57 53 50 32                # WSP2
00 00 00 00 00 00 00 01    # number 1
00 00                      # a plan record of no bytes
00 80                      # 128 key groups
02                         # two sources
01 73 01                   # the uid `s`, and one partition
00 00 00 00 00 00 00 02
00 00 00 00 00 00 00 09
01 73                      # the uid `s` again
```

The file was not written by a job, or it was damaged.
"#,
    ),
    (
        "V5",
        r#"V5 Range (status 3)

A field has a value that it cannot have, as a number of 0, a character that no uid has, or a least value of over 64
bits.

```hex savepoint
57 53 50 32                # WSP2
00 00 00 00 00 00 00 00    # number 0
```

The file was not written by a job, or it was damaged.
"#,
    ),
    (
        "V7",
        r#"V7 Index (status 3)

The place that the index gives for a key group is not where its entries begin: where the index ends, and behind the
entries of the key groups before it.

```hex savepoint
57 53 50 32                # WSP2
00 00 00 00 00 00 00 01    # number 1
00 00                      # a plan record of no bytes
00 80                      # 128 key groups
01                         # one source
01 73 01                   # its uid `s`, and one partition
00 00 00 00 00 00 00 02    # offset 2
00 00 00 00 00 00 00 09    # watermark 9
01 77                      # the window's uid `w`
01 00                      # one aggregate, a count
00 01                      # one key group has an entry
00 56                      # key group 86
00 00 00 00 00 00 00 01    # one entry
00 00 00 00 00 00 00 3d    # at byte 61, and the index ends at byte 60
```

The file was not written by a job, or it was damaged.
"#,
    ),
    (
        "Q1",
        r#"Q1 MaxParallelism (status 3)

The plan's `maxParallelism` is not the savepoint's: the key groups would be others.

```json plan.json
{"columns": 2, "maxParallelism": 64, "time": 0, "key": 1, "sources": [{"uid": "calls", "partitions": 1}],
 "window": {"uid": "usage", "size": 10, "aggregates": [{"fn": "count"}]}}
```

Write the number that `check --from` tells into the plan. It cannot be changed while a job goes on.
"#,
    ),
    (
        "Q2",
        r#"Q2 UnknownUid (status 3)

The savepoint has a source, or a window, whose uid is none of the plan's.

```json plan.json
{"columns": 2, "maxParallelism": 128, "time": 0, "key": 1, "sources": [{"uid": "calls", "partitions": 1}],
 "window": {"uid": "hourly", "size": 10, "aggregates": [{"fn": "count"}]}}
```

```json scale.json
{"ring": 16, "operators": {"calls": {"parallelism": 1}, "hourly": {"parallelism": 2}}}
```

Give the operators of the plan, the input and the scale the uids that `streamjob show savepoint` prints; `check --from`
tells which differ.
"#,
    ),
    (
        "Q3",
        r#"Q3 MissingUid (status 3)

The plan has a source that the savepoint has not.

```json plan.json
{"columns": 2, "maxParallelism": 128, "time": 0, "key": 1,
 "sources": [{"uid": "calls", "partitions": 1}, {"uid": "mails", "partitions": 1}],
 "window": {"uid": "usage", "size": 10, "aggregates": [{"fn": "count"}]}}
```

```json input.json
{"calls": [[{"rows": [[1, 7]]}, {"rows": [[2, 7]]}]], "mails": [[]]}
```

```json scale.json
{"ring": 16, "operators": {"calls": {"parallelism": 1}, "mails": {"parallelism": 1}, "usage": {"parallelism": 2}}}
```

A source cannot be added while a job goes on; `check --from` tells which were. Begin from nothing, or run the new source
as a job of its own.
"#,
    ),
    (
        "Q4",
        r#"Q4 PlanChanged (status 3)

The plan counts otherwise than the one that the savepoint is of: another column of time or key, window, filter
condition, aggregate, having condition or bound of watermarks. [FORMATS.md](FORMATS.md#savepoint) has what a plan record
has, and what it has not.

```json plan.json
{"columns": 2, "maxParallelism": 128, "time": 0, "key": 1, "sources": [{"uid": "calls", "partitions": 1}],
 "window": {"uid": "usage", "size": 20, "aggregates": [{"fn": "count"}]}}
```

Go on with the plan that the job began with. A new plan begins from nothing. `check --from` tells each number of the
window and the columns that is another, with both values, and which of the lists of conditions, aggregates and bounds
are.
"#,
    ),
    (
        "Q5",
        r#"Q5 Partitions (status 3)

A source has another number of partitions in the plan than in the savepoint.

```json plan.json
{"columns": 2, "maxParallelism": 128, "time": 0, "key": 1, "sources": [{"uid": "calls", "partitions": 2}],
 "window": {"uid": "usage", "size": 10, "aggregates": [{"fn": "count"}]}}
```

```json input.json
{"calls": [[{"rows": [[1, 7]]}, {"rows": [[2, 7]]}], []]}
```

The number of partitions cannot be changed while a job goes on; a scale can. So a new file is no new partition: put its
lines behind those of an old one, as in section 14 of [GUIDE.md](GUIDE.md#14-stopping-a-job-and-going-on).
"#,
    ),
    (
        "Q6",
        r#"Q6 Offset (status 3)

The savepoint has read more entries of a partition than the input has.

```json input.json
{"calls": [[]]}
```

Go on with the same input, or with one that has changed behind the cut alone: the entries that were read have to be
there as they were. An input of what is new alone is refused, and so is one that was imported with more `--rows`.
`check --from` tells the partitions, and how many entries were read of each.
"#,
    ),
    (
        "Q7",
        r#"Q7 Watermark (status 3)

A partition's watermark in the savepoint is not the one that the input has after as many entries: the input is another
one, or entries were added to a partition that had been read to its end.

```json input.json
{"calls": [[{"watermark": 0}, {"rows": [[2, 7]]}]]}
```

Go on with the input that was read, or one that has changed behind the cut alone, imported with the same `--rows` and
`--bound`: others say other entries and watermarks. `check --from` tells each partition with both watermarks, and
whether it had been read to its end or the input was cut short. A job that is to go on with more entries later stops
before its input's end: an entry before the end of each partition that is to get more.
"#,
    ),
    (
        "Q8",
        r#"Q8 WrongGroup (status 3)

An entry of the savepoint stands under a key group that is not its key's.

```console
$ printf '\x72' | dd of=savepoint bs=1 seek=92 conv=notrunc status=none && streamjob leg plan.json input.json scale.json --from savepoint
Q8 WrongGroup
```

The file was not written by a job, or it was damaged: take a whole copy. `check --from` tells up to 20 such entries,
with their windows and keys, here and in the next two sections.
"#,
    ),
    (
        "Q9",
        r#"Q9 ClosedWindow (status 3)

An entry of the savepoint is of a window that has fired before its cut, or of one that the plan does not have.

```console
$ printf '\x05' | dd of=savepoint bs=1 seek=116 conv=notrunc status=none && streamjob leg plan.json input.json scale.json --from savepoint
Q9 ClosedWindow
```

The file was not written by a job, or it was damaged: take a whole copy.
"#,
    ),
    (
        "Q11",
        r#"Q11 Count (status 3)

An entry of the savepoint has more records than the input has before the offsets.

```console
$ for at in 132 148; do printf '\x02' | dd of=savepoint bs=1 seek=$at conv=notrunc status=none; done; streamjob leg plan.json input.json scale.json --from savepoint
Q11 Count
```

Compare the input with the one that the job began with; else the file was not written by a job, or it was damaged.
"#,
    ),
    (
        "Q12",
        r#"Q12 Number (status 3)

The savepoint's number is over 2^63, so that the legs after it would run out of numbers.

```console
$ printf '\x80' | dd of=savepoint bs=1 seek=4 conv=notrunc status=none && streamjob leg plan.json input.json scale.json --from savepoint
Q12 Number
```

The file was not written by a job, or it was damaged: take a whole copy.
"#,
    ),
    (
        "R1",
        r#"R1 Form (status 3)

The file of `--since` is no receipt of a job with these sources: it is no JSON object with just the members that a
receipt has, a count is no whole number of 64 bits, a digest has not 64 hexadecimal digits, or there are other sources,
or other numbers of partitions, than the plan has.

```console
$ echo '{"version": "streamjob 0.1.0"}' > receipt.json; streamjob leg plan.json input.json scale.json --from savepoint --since receipt.json
R1 Form
```

Give the file that `--receipt` left beside the savepoint.
"#,
    ),
    (
        "R2",
        r#"R2 Plan (status 3)

The plan has another record than the receipt tells of. A leg by that savepoint would go on, so the receipt is of another
job.

```console
$ sed 's/128/64/' plan.json > other.json; streamjob leg other.json input.json scale.json --stop 1 --save other --receipt receipt.json; streamjob leg plan.json input.json scale.json --from savepoint --since receipt.json
R2 Plan
```

Give the receipt that the leg left which wrote the savepoint.
"#,
    ),
    (
        "R3",
        r#"R3 Cut (status 3)

The receipt tells of another number of entries of a partition than the savepoint has read: it is that of another leg.
The line has the source and the partition.

```console
$ streamjob leg plan.json input.json scale.json --stop 0 --save other --receipt receipt.json; streamjob leg plan.json input.json scale.json --from savepoint --since receipt.json
R3 Cut calls 0
```

Give the receipt that the leg left which wrote the savepoint: name both by one night.
"#,
    ),
    (
        "R4",
        r#"R4 Entries (status 3)

The entries of a partition before the savepoint's cut are not those that were read: a record or a watermark was changed,
left out or put in, or stands elsewhere. The line has the source and the partition.

```console
$ streamjob leg plan.json input.json scale.json --stop 1 --save first --receipt receipt.json; sed 's/1, 7/1, 8/' input.json > other.json; streamjob leg plan.json other.json scale.json --from first --since receipt.json
R4 Entries calls 0
```

Take the files as they were when that leg ran, and import them as then, with the same COLUMNS, `--rows`, `--bound` and
table of names. What was corrected before the cut needs the job to run again from where it was not read yet: from an
older savepoint with its receipt, or from nothing. What stands behind the cut may change.
"#,
    ),
    (
        "R5",
        r#"R5 Names (status 3)

The table of names of `--names` does not begin with the bytes that it had when the leg of the receipt ran, or none is
named and the receipt tells of one: a number may now be another customer's.

```console
$ printf '1,a\n' > names.csv; streamjob leg plan.json input.json scale.json --stop 1 --save first --receipt receipt.json --names names.csv; printf '1,b\n' > names.csv; streamjob leg plan.json input.json scale.json --from first --since receipt.json --names names.csv
R5 Names
```

Take the table that the import of that night left. Names that came since stand behind it.
"#,
    ),
];
