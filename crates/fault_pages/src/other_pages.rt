//! The pages of all other faults. `scripts/fault_pages` makes this file of docs/FAULTS.md.

use crate::page::FaultPage;

/// The pages of all other faults, in the order of docs/FAULTS.md.
pub const OTHER_PAGES: [FaultPage<'static>; 13] = [
    (
        "C1",
        r#"C1 Cut (status 2)

The word after `--stop` is no cut: counts of 1 to 20 digits, each below 2^64, with commas between the partitions of a
source, and slashes between sources. A sign, a space, a point or an empty count is none. So it is of the word after
`--saves`, which has such cuts with a `+` between them. `leg` also says it of `--stop-file` beside `--stop`, as it would
have two places to stop at, beside `--saves`, and without `--save`, as what it has read would be lost.

```console
$ streamjob leg plan.json input.json scale.json --stop 1,x
C1 Cut
$ streamjob leg plan.json input.json scale.json --stop-file stop
C1 Cut
```

Write it as `2,2/5`, for two partitions of the first source and one of the second. See the [cut](FORMATS.md#cut). With
`--stop-file` name a file for the savepoint, and no cut. See the [stop file](FORMATS.md#stop-file).
"#,
    ),
    (
        "C2",
        r#"C2 Number (status 2)

A word of `group` is no number in its range: KEY is a hyphen or none and 1 to 19 digits, of 64 bits; MAX has 1 to 5
digits, from 1 to 32768; PAR has 1 to 5 digits, from 1 to 64 and at most MAX. A `+`, a space, a point or an empty word
is none. `import` says it of `--bound`, digits alone, below 2^64, of `--rows`, from 1 to 4096, and of `--ranges`, from 1
to 64 and at most the plan's `maxParallelism`, with the word. `run` says it of `--parallelism` where it is not 1 to 5
digits, and beside a list of legs, each of which has its own scale; `cuts` of `--until` where it is neither a number as
KEY is nor a time in ISO 8601, and beside `--open`; `check` of `--from` and `--stop` where no INPUT is named, and of
`--scale` beside SCALE; `leg` of `--since` without `--from`, and where `--save` and `--receipt` name one file; `leg` and
`run` of `--names` where no receipt is named; `run` of `--receipt` beside a list of legs; `export` of `--header` where
it is neither `yes` nor `no`, or beside `--json`, and of `--json` where two numbers of a row would be called the same;
`split` of N where it is not 1 to 5 digits, from 1 to 64 and at most the plan's `maxParallelism`; `show` of `--group`
where it is not 1 to 5 digits, at most 32767.

```console
$ streamjob group 7 128 65
C2 Number
$ streamjob run plan.json input.json --parallelism two
C2 Number
$ streamjob import plan.json new.json at,key calls=calls.csv --rows 5000
C2 Number --rows: "5000" is no whole number from 1 to 4096
```

Take a number in the range. For `check` name the input, too. A receipt goes beside a savepoint, in a file of its own.
"#,
    ),
    (
        "C3",
        r#"C3 Options (status 2)

Words of `import` do not go together: `--twice` has a file for records that are there twice, and none is without
`--once`; `--fold` says which instant a time of `--zone` is that clocks show twice or never: `first` or `second`;
`--ranges` has parts written beside INPUT, which is then no device; `--bound` makes watermarks, and each source of the
plan makes its own, by the bound there.

```console
$ streamjob import plan.json new.json at,key calls=calls.csv --twice twice.csv
C3 Options --twice stands without --once
```

Name by `--once` the fields in which such records are the same, and by `--zone` the zone of times that have none. So it
is with the word of `--separator`, where it is neither `tab` nor one character of ASCII that is no quotation mark and
ends no line, and with that of `--decimal`, which is a point or a comma, and not what stands between the fields.
"#,
    ),
    (
        "F1",
        r#"F1 Read (status 3)

A file is missing, is a folder, may not be read, or has more than 1073741824 bytes, as a device without an end does; `-`
is a file of that name and not standard input. All files are read first, so this comes before any fault of a plan.
`run`, `leg` and `simulate` also say it where the system gives no random bytes, and `leg` where it cannot be told
whether the file of `--stop-file` is there, as in a folder without permission. `import` reads one file after the other,
and names the one that is missing, its records may be any number of bytes; `check` names it on standard output, as
`no-such-file.json: the file cannot be read`.

```console
$ streamjob run plan.json no-such-file.json
F1 Read
$ streamjob import plan.json new.json at,key calls=no-such-file.csv
F1 Read no-such-file.csv
```

`ls -l` each file that the command names. For standard input write `/dev/stdin`.
"#,
    ),
    (
        "F2",
        r#"F2 Write (status 3)

Standard output took no more: the disk is full, or the other end of a pipe is closed. How much of the answer was taken
is not known. `leg --save` also says it where the file cannot be written: a folder stands there, its folder is missing
or takes no files of yours, or the disk is full. Then no row was printed, and the file is as it was. So does `import`,
of INPUT, with `--ranges` of the parts' files, and of those of `--names`, `--late`, `--twice`, `--bad` and `--report`;
and where one of them is named twice, or is PLAN, the file of the columns or one of a source, since it would be written
over. `split` says it of a part's file that cannot be written, or is PLAN or INPUT. Two names of one file are not told
apart there. `leg` and `run` say it, before anything is read, of a file of `--save` or `--receipt` that is PLAN, INPUT,
SCALE or another file that they read; only the next savepoint may take the name of that of `--from`, and the next
receipt that of `--since`. `leg --save FILE > FILE` is refused so before anything is written, by each name of the file
but a hard link.

What is no regular file of a name of its own is written to as it stands, behind what it holds: a pipe, a device,
`/dev/stdout`. Any other file is written beside, as `FILE.NUMBER.part`, and takes its name once it is on the disk. Where
a limit of the size of files (`ulimit -f`) is met, the system ends the program by the signal SIGXFSZ: nothing is told,
the file is as it was, and the part stays beside it, as it does after `kill -9` and other signals. Remove it.

```console
$ streamjob import plan.json no-such-folder/new.json at,key calls=calls.csv
F2 Write no-such-folder/new.json
$ streamjob import plan.json calls.csv at,key calls=calls.csv
F2 Write calls.csv: the import reads it too
$ streamjob group 7 128 4 > /dev/full
F2 Write
$ streamjob leg plan.json input.json scale.json --stop 1 --save no-such-folder/savepoint
F2 Write
```

Throw away what was written, make room and run again. After `| head` it may be ignored. Where the rows of a leg were cut
off its savepoint is there all the same. Run the same leg again, from what it began with, since the next leg does not
print them; so give `--save` another file than `--from`.
"#,
    ),
    (
        "L1",
        r#"L1 StopRange (status 3)

A leg cannot stop at the cut of `--stop`: it has another number of sources or of partitions than the plan, a count is
over the number of entries of its partition, or it is below what the savepoint of `--from` has read.

```console
$ streamjob leg plan.json input.json scale.json --stop 3
L1 StopRange
$ streamjob leg plan.json input.json scale.json --from savepoint --stop 0
L1 StopRange
```

`streamjob check plan.json input.json --from savepoint --stop 0` tells which count is wrong, and why. Without `--stop` a
leg goes to the end of the input.
In a list of legs the `stop` of a leg is such a cut, and is below that of a leg before it where it counts fewer entries
of a partition.
"#,
    ),
    (
        "L3",
        r#"L3 Legs (status 3)

The list of legs has no leg, or more than 1,024, or a leg before the last has no `stop`.

```json legs.json
[]
```

Only the last leg may go to the end of the input. `jq length legs.json` counts the legs.
"#,
    ),
    (
        "L4",
        r#"L4 NotJson (status 3)

The list of legs is no JSON text, as for `P1`.

```json legs.json
[
```

`jq . legs.json` names the line and the column of most.
"#,
    ),
    (
        "L5",
        r#"L5 Member (status 3)

The list of legs is no list of objects with a `scale` and perhaps `saves` and a `stop`, a member is unknown, a `stop` is
no list of lists of whole numbers from 0 to 2^64 - 1, or `saves` is no list of such lists.

```json legs.json
[{"scale": {"ring": 16, "operators": {"calls": {"parallelism": 1}, "usage": {"parallelism": 1}}}, "stop": "2,2"}]
```

A cut has another form here than on the command line: `[[2, 2]]` is `2,2`. docs/FORMATS.md has the form under List of
legs. A scale of a leg that is refused has its own code, `S2` to `S7`.
"#,
    ),
    (
        "L6",
        r#"L6 Choices (status 3)

The file of choices is no JSON text, or no list that has a list for each leg, or a choice is no whole number from 0 to
2^32 - 1.

```json legs.json
[{"scale": {"ring": 16, "operators": {"calls": {"parallelism": 1}, "usage": {"parallelism": 2}}}, "stop": [[1]]},
 {"scale": {"ring": 16, "operators": {"calls": {"parallelism": 1}, "usage": {"parallelism": 1}}}}]
```

```json choices.json
[[1]]
```

```console
$ streamjob simulate plan.json input.json legs.json choices.json
L6 Choices
```

Here are two legs, so two lists: `[[1], []]`. A leg without choices has an empty one. docs/FORMATS.md has the form under
Choices.
"#,
    ),
    (
        "L8",
        r#"L8 SaveRange (status 3)

A leg cannot take a savepoint on its way at each cut where it is to: there are more than 1,024, a cut has another number
of sources or of partitions than the plan, a count is over the number of entries of its partition, or it is below that
of the cut before, or below what was read before the leg, or over that of the cut where the leg stops.

```console
$ streamjob leg plan.json input.json scale.json --saves 1+0
L8 SaveRange
$ streamjob leg plan.json input.json scale.json --saves 2 --stop 1
L8 SaveRange
```

Write the cuts in the order in which the leg comes to them; one at the cut of `--stop` may be there, and one that stands
twice is two savepoints. In a list of legs it is the `saves` of a leg. See
[savepoints on the way](FORMATS.md#savepoints-on-the-way).
"#,
    ),
    (
        "L7",
        r#"L7 Threads (status 4)

The system refused a thread. `run` and `leg` run each subtask of a stage in a thread of its own, and the sink in one: a
limit of processes (`ulimit -u`, a container's) or of addresses (`ulimit -v`) has no room for them. It says nothing of
the files, and nothing was written.

Raise the limit, or run with fewer subtasks: the rows are the same. `simulate` needs no thread but the program's own.
"#,
    ),
    (
        "memory",
        r#"memory (status 4)

The system gave no memory, because of a limit (`ulimit -v`, a container's) or a full machine. It says nothing of the
files. Where Linux promises more memory than it has, it may end the program by a signal instead. Where `leg` printed
rows before it, it was given up behind a savepoint of `--saves`: the rows go up to there, and a leg `--from` the file of
`--save` has the others.

[PERFORMANCE.md](PERFORMANCE.md) has what a run takes by its number of records. Split the input by keys and run the
parts one by one: the rows of all parts together, sorted, are those of the whole.
"#,
    ),
];
