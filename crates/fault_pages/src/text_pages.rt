//! The pages of the faults of a plan, of an input and of a scale. `scripts/fault_pages` makes this file of
//! docs/FAULTS.md.

use crate::page::FaultPage;

/// The pages of the faults of a plan, of an input and of a scale, in the order of docs/FAULTS.md.
pub const TEXT_PAGES: [FaultPage<'static>; 34] = [
    (
        "P1",
        r#"P1 NotJson (status 3)

The plan is no JSON text. Mostly a comma too many or too few, a comment, single quotes, a byte order mark, UTF-16, two
texts in one file, or a file that breaks off. So is a text whose lists and objects are nested over 127 deep, or with a
number that is too large for a double.

```json plan.json
{
```

`jq . plan.json` names the line and the column of most. For a byte order mark or UTF-16, `file plan.json`.
"#,
    ),
    (
        "P2",
        r#"P2 Member (status 3)

A member is missing, unknown or of another type. Often it is a typing error in a name, a name where a number is to
stand, a number with a point or in quotes, `null` for an absent member, `min` for `least`, `max` for `greatest`, `>` for
`gt`, or a `column` in a `count`.

```json plan.json
{}
```

`streamjob check plan.json` tells each place and what has to stand there, by the [plan](FORMATS.md#plan)'s members. No
other member may stand in a plan, so there is no place for remarks.
"#,
    ),
    (
        "P3",
        r#"P3 Columns (status 3)

`columns` is not 1 to 16.

```json plan.json
{"columns": 17, "maxParallelism": 128, "time": 0, "key": 1, "sources": [{"uid": "calls", "partitions": 1}],
 "window": {"uid": "usage", "size": 10, "aggregates": [{"fn": "count"}]}}
```

Leave out columns that neither time, key, filter nor aggregate names.
"#,
    ),
    (
        "P4",
        r#"P4 ColumnIndex (status 3)

`time`, `key`, or the `column` of a filter or an aggregate is not 0 to `columns` - 1.

```json plan.json
{"columns": 2, "maxParallelism": 128, "time": 0, "key": 2, "sources": [{"uid": "calls", "partitions": 1}],
 "window": {"uid": "usage", "size": 10, "aggregates": [{"fn": "count"}]}}
```

Columns count from 0: the last of 2 columns is 1.
"#,
    ),
    (
        "P5",
        r#"P5 MaxParallelism (status 3)

`maxParallelism` is not 1 to 32768.

```json plan.json
{"columns": 2, "maxParallelism": 0, "time": 0, "key": 1, "sources": [{"uid": "calls", "partitions": 1}],
 "window": {"uid": "usage", "size": 10, "aggregates": [{"fn": "count"}]}}
```

128 will do for most jobs. The rows of `run` do not depend on it.
"#,
    ),
    (
        "P6",
        r#"P6 Sources (status 3)

There are not 1 to 8 sources.

```json plan.json
{"columns": 2, "maxParallelism": 128, "time": 0, "key": 1, "sources": [],
 "window": {"uid": "usage", "size": 10, "aggregates": [{"fn": "count"}]}}
```

With more than 8, make several streams the partitions of one source: all sources have the same columns.
"#,
    ),
    (
        "P7",
        r#"P7 Partitions (status 3)

A source's `partitions` is not 1 to 64.

```json plan.json
{"columns": 2, "maxParallelism": 128, "time": 0, "key": 1, "sources": [{"uid": "calls", "partitions": 65}],
 "window": {"uid": "usage", "size": 10, "aggregates": [{"fn": "count"}]}}
```

Put several streams into one partition. Its watermarks are then the least of theirs.
"#,
    ),
    (
        "P8",
        r#"P8 Uid (status 3)

The `uid` of a source, a filter or the window is not 1 to 64 characters of `a` to `z`, `0` to `9` and hyphen.

```json plan.json
{"columns": 2, "maxParallelism": 128, "time": 0, "key": 1, "sources": [{"uid": "calls", "partitions": 1}],
 "window": {"uid": "Usage_1", "size": 10, "aggregates": [{"fn": "count"}]}}
```

No capital letters, and no underscore: `usage-1`.
"#,
    ),
    (
        "P9",
        r#"P9 UidTwice (status 3)

Two of the sources, the filters and the window have one `uid`.

```json plan.json
{"columns": 2, "maxParallelism": 128, "time": 0, "key": 1, "sources": [{"uid": "calls", "partitions": 1}],
 "window": {"uid": "calls", "size": 10, "aggregates": [{"fn": "count"}]}}
```

Give each a uid of its own.
"#,
    ),
    (
        "P10",
        r#"P10 Filters (status 3)

There are over 32 filters, or over 32 having conditions.

```json plan.json
{"columns": 2, "maxParallelism": 128, "time": 0, "key": 1, "sources": [{"uid": "calls", "partitions": 1}],
 "window": {"uid": "usage", "size": 10, "aggregates": [{"fn": "count"}], "having": [
    {"aggregate": 0, "op": "ge", "value": 1}, {"aggregate": 0, "op": "ge", "value": 2}, {"aggregate": 0, "op": "ge", "value": 3},
    {"aggregate": 0, "op": "ge", "value": 4}, {"aggregate": 0, "op": "ge", "value": 5}, {"aggregate": 0, "op": "ge", "value": 6},
    {"aggregate": 0, "op": "ge", "value": 7}, {"aggregate": 0, "op": "ge", "value": 8}, {"aggregate": 0, "op": "ge", "value": 9},
    {"aggregate": 0, "op": "ge", "value": 10}, {"aggregate": 0, "op": "ge", "value": 11}, {"aggregate": 0, "op": "ge", "value": 12},
    {"aggregate": 0, "op": "ge", "value": 13}, {"aggregate": 0, "op": "ge", "value": 14}, {"aggregate": 0, "op": "ge", "value": 15},
    {"aggregate": 0, "op": "ge", "value": 16}, {"aggregate": 0, "op": "ge", "value": 17}, {"aggregate": 0, "op": "ge", "value": 18},
    {"aggregate": 0, "op": "ge", "value": 19}, {"aggregate": 0, "op": "ge", "value": 20}, {"aggregate": 0, "op": "ge", "value": 21},
    {"aggregate": 0, "op": "ge", "value": 22}, {"aggregate": 0, "op": "ge", "value": 23}, {"aggregate": 0, "op": "ge", "value": 24},
    {"aggregate": 0, "op": "ge", "value": 25}, {"aggregate": 0, "op": "ge", "value": 26}, {"aggregate": 0, "op": "ge", "value": 27},
    {"aggregate": 0, "op": "ge", "value": 28}, {"aggregate": 0, "op": "ge", "value": 29}, {"aggregate": 0, "op": "ge", "value": 30},
    {"aggregate": 0, "op": "ge", "value": 31}, {"aggregate": 0, "op": "ge", "value": 32}, {"aggregate": 0, "op": "ge", "value": 33}]}}
```

Two conditions on one column can often be one. What is left over can be a column of 0 and 1, made before.
"#,
    ),
    (
        "P11",
        r#"P11 WindowSize (status 3)

The window's `size` is not 1 to 2^40 = 1099511627776.

```json plan.json
{"columns": 2, "maxParallelism": 128, "time": 0, "key": 1, "sources": [{"uid": "calls", "partitions": 1}],
 "window": {"uid": "usage", "size": 0, "aggregates": [{"fn": "count"}]}}
```

The size has the unit of the times. 2^40 milliseconds are 34 years, but 2^40 nanoseconds 18 minutes: take coarser times.
"#,
    ),
    (
        "P12",
        r#"P12 WindowSlide (status 3)

The window's `slide` is not 1 to 2^40.

```json plan.json
{"columns": 2, "maxParallelism": 128, "time": 0, "key": 1, "sources": [{"uid": "calls", "partitions": 1}],
 "window": {"uid": "usage", "size": 10, "slide": 0, "aggregates": [{"fn": "count"}]}}
```

For windows that follow one another leave `slide` out: it is then the size.
"#,
    ),
    (
        "P13",
        r#"P13 WindowOffset (status 3)

The window's `offset` is not above -slide and below slide.

```json plan.json
{"columns": 2, "maxParallelism": 128, "time": 0, "key": 1, "sources": [{"uid": "calls", "partitions": 1}],
 "window": {"uid": "usage", "size": 10, "offset": 10, "aggregates": [{"fn": "count"}]}}
```

Take it modulo the slide. For windows of a day that begin at 01:00, in milliseconds: 3600000.
"#,
    ),
    (
        "P14",
        r#"P14 Panes (status 3)

The size divided by the slide, rounded up, is over 256: so many windows could hold one time.

```json plan.json
{"columns": 2, "maxParallelism": 128, "time": 0, "key": 1, "sources": [{"uid": "calls", "partitions": 1}],
 "window": {"uid": "usage", "size": 257, "slide": 1, "aggregates": [{"fn": "count"}]}}
```

Take a slide of at least the size divided by 256.
"#,
    ),
    (
        "P15",
        r#"P15 Aggregates (status 3)

There are not 1 to 8 aggregates, or the `aggregate` of a having condition is the place of none of them.

```json plan.json
{"columns": 2, "maxParallelism": 128, "time": 0, "key": 1, "sources": [{"uid": "calls", "partitions": 1}],
 "window": {"uid": "usage", "size": 10, "aggregates": []}}
```

Places count from 0. More than 8 numbers take two plans, run on the same input.
"#,
    ),
    (
        "P17",
        r#"P17 Bound (status 3)

The `bound` of a source's `watermarks` is not from 0 to 2^40 = 1099511627776.

```json plan.json
{"columns": 2, "maxParallelism": 128, "time": 0, "key": 1,
 "sources": [{"uid": "calls", "partitions": 1, "watermarks": {"bound": -1}}],
 "window": {"uid": "usage", "size": 10, "aggregates": [{"fn": "count"}]}}
```

A bound is in the unit of the times: how far behind the latest record of its partition a record may come. With 0 none
may, but for those of one entry.
"#,
    ),
    (
        "I1",
        r#"I1 NotJson (status 3)

The input is no JSON text, as under `P1 NotJson`. An empty file, CSV, and one JSON value to a line are none, and so are
`NaN`, `007` and a number that is too large for a double.

```json input.json
{
```

`jq . input.json > /dev/null` names the line and the column of most. Do not put what jq 1.6 prints in place of an input:
it changes numbers above 2^53.
"#,
    ),
    (
        "I2",
        r#"I2 Member (status 3)

The text has another shape than an input: an object from uids to lists of partitions; a partition is a list of entries;
an entry has just one member, `rows`, a list of lists, or `watermark`. Often an entry is a row, a row is an object, an
entry has both members, or a list is missing.

```json input.json
{"calls": [[[1, 7]]]}
```

Count the brackets against the [input](FORMATS.md#input).
"#,
    ),
    (
        "I3",
        r#"I3 Source (status 3)

The input has a uid that is none of the plan's sources, or lacks one of them.

```json input.json
{"call": [[{"rows": [[1, 7]]}]]}
```

Each source of the plan stands once, a source without records too. Of two members with one uid the last counts, and only
`check` tells of it.
"#,
    ),
    (
        "I4",
        r#"I4 Partitions (status 3)

A source has another number of partitions than the plan says.

```json input.json
{"calls": [[{"rows": [[1, 7]]}], []]}
```

A partition without entries is `[]`.
"#,
    ),
    (
        "I5",
        r#"I5 Width (status 3)

A row has more or fewer elements than `columns`.

```json input.json
{"calls": [[{"rows": [[1]]}]]}
```

With 2 columns, this prints the place of each such row (source, partition, entry, `rows`, row) and the row:

```sh
jq -c 'paths(arrays) as $p | select(($p | length) == 5) | [$p, getpath($p)] | select(.[1] | length != 2)' input.json
```
"#,
    ),
    (
        "I6",
        r#"I6 Number (status 3)

An element of a row, or a watermark, is no whole number of 64 bits: `2.5`, `3.0`, `1e3`, `"5"`, `null`, `true`, `-0`,
2^63.

```json input.json
{"calls": [[{"rows": [[1, 2.5]]}]]}
```

Scale decimals to whole numbers before (kWh to Wh), and turn names into numbers. Leave a record without a value out, or
write 0 where 0 is meant.
"#,
    ),
    (
        "I7",
        r#"I7 Rows (status 3)

An entry has no row, or more than 4,096.

```json input.json
{"calls": [[{"rows": []}]]}
```

Leave the entry out, or split it: two entries with no watermark between count as one.
"#,
    ),
    (
        "I8",
        r#"I8 TimeRange (status 3)

A row's time or a watermark is not from -2^62 to 2^62 - 1 = 4611686018427387903.

```json input.json
{"calls": [[{"rows": [[4611686018427387904, 7]]}]]}
```

Nanoseconds since 1970 fit until 2116. The greatest number of 64 bits is no watermark for the end: leave it out, as the
end of a partition is known.
"#,
    ),
    (
        "I9",
        r#"I9 LateRecord (status 3)

A record comes too late: its time is not above a watermark before it in its partition. The three numbers are its source,
by its place in the plan, its partition and its entry, all from 0. It is the first such entry by these. The whole input
is refused, since to drop the record would make a wrong sum.

```json input.json
{"calls": [[{"watermark": 5}, {"rows": [[5, 7]]}]]}
```

```console
$ streamjob run plan.json input.json
I9 LateRecord 0 0 1
```

A watermark of 5 says that no time of 5 or less comes after it. Lower the watermarks or leave them out (`run` prints the
same rows without), or take the record out. Where the source makes its own watermarks, an entry is late that is behind
the greatest time of those before it by more than the bound: take a greater one.
"#,
    ),
    (
        "I10",
        r#"I10 TooMany (status 3)

The input has over 2^40 records, all sources together. Such a text has more than 4 terabytes, so most machines say
`memory` first.

Split the input by keys, as under `memory`.
"#,
    ),
    (
        "I12",
        r#"I12 Kind (status 3)

A watermark stands in a partition of a source that makes its own: in the plan it has `watermarks`. This is looked for
before `I9`.

```json plan.json
{"columns": 2, "maxParallelism": 128, "time": 0, "key": 1,
 "sources": [{"uid": "calls", "partitions": 1, "watermarks": {"bound": 5}}],
 "window": {"uid": "usage", "size": 10, "aggregates": [{"fn": "count"}]}}
```

```json input.json
{"calls": [[{"rows": [[1, 7]]}, {"watermark": 5}]]}
```

Take it out, or `watermarks` out of the plan's source.
"#,
    ),
    (
        "S1",
        r#"S1 NotJson (status 3)

The scale is no JSON text, as under `P1 NotJson`.

```json scale.json
{
```

`jq . scale.json` names the line and the column of most.
"#,
    ),
    (
        "S2",
        r#"S2 Member (status 3)

A member is missing, unknown or of another type: `ring`, `operators`, and for each operator `parallelism` and, where it
stands, `chain`, which is `true` or `false`.

```json scale.json
{"ring": 16, "operators": {"calls": 1, "usage": 2}}
```

Compare with the [scale](FORMATS.md#scale). `null` is not absent.
"#,
    ),
    (
        "S3",
        r#"S3 UnknownUid (status 3)

`operators` has a uid that no source, filter or window of the plan has. The sink has none.

```json scale.json
{"ring": 16, "operators": {"calls": {"parallelism": 1}, "usage": {"parallelism": 2}, "sink": {"parallelism": 1}}}
```

Take it out, or mend the uid.
"#,
    ),
    (
        "S4",
        r#"S4 MissingUid (status 3)

A source, a filter or the window has no member in `operators`.

```json scale.json
{"ring": 16, "operators": {"calls": {"parallelism": 1}}}
```

Give each operator of the plan its parallelism.
"#,
    ),
    (
        "S5",
        r#"S5 Parallelism (status 3)

A `parallelism` is not from 1 to 64, or is above the plan's `maxParallelism`; this holds of each operator, the sources
too. `run` says it of the number of `--parallelism`.

```json scale.json
{"ring": 16, "operators": {"calls": {"parallelism": 1}, "usage": {"parallelism": 65}}}
```

Lower it.
"#,
    ),
    (
        "S6",
        r#"S6 Ring (status 3)

`ring` is not 1 to 1024.

```json scale.json
{"ring": 0, "operators": {"calls": {"parallelism": 1}, "usage": {"parallelism": 2}}}
```

16 will do for most jobs.
"#,
    ),
    (
        "S7",
        r#"S7 Tasks (status 3)

The layout would have over 256 tasks: the subtasks of each stage, and one of the sink. Chained operators count once.
With `run --parallelism N` each source has N subtasks, but no more than partitions, the window N, and each filter as
many as the source with the most.

```json plan.json
{"columns": 2, "maxParallelism": 128, "time": 0, "key": 1,
 "sources": [{"uid": "calls", "partitions": 64}, {"uid": "mails", "partitions": 64}, {"uid": "files", "partitions": 64}],
 "window": {"uid": "usage", "size": 10, "aggregates": [{"fn": "count"}]}}
```

```json scale.json
{"ring": 16, "operators": {"calls": {"parallelism": 64}, "mails": {"parallelism": 64}, "files": {"parallelism": 64},
 "usage": {"parallelism": 64}}}
```

Lower a parallelism, or let filters chain: give them the parallelism of the operator before.
"#,
    ),
];
