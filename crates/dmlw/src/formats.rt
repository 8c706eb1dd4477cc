// The page that `dmlw help formats` prints.

/// The page that `dmlw help formats` prints. docs/FORMATS.md has the same text.
pub const FORMATS: &str = r#"# Formats

This page has the lines of scripts, what each command prints, the exit statuses,
the faults, the limits and the bytes of a log. `dmlw help formats` prints it.

Sizes and positions are in sectors of 512 bytes, unless log sectors are named.
Each printed line ends with a line feed.

## Scripts of `record`

    data 16            the data disk has 16 sectors,
    log 32             and the log's disk 32
    w a 5 1 41         `a` writes sector 5, one sector of bytes 41
    c a                `a` ends
    close              recording ends

The words on the left are a script. A script is ASCII text without zero bytes.
Each line ends with a line feed, which the last line may lack. Empty lines are
skipped, and so are lines that begin with `#`.

One space separates two words. A tab, two spaces, an upper case letter in a
word, a byte order mark, or a carriage return at a line's end is therefore
refused as 30 BadLine. There are two exceptions. The text of a mark or a message
is taken as it is. The words of a layer's table line may have more spaces
between them, and a bad word there has its own number (9 to 12, 29).

A script begins with these lines, in this order:

    data <sectors>
        The size of the data disk.
    log <sectors> [4096]
        The size of the log's disk. With the word `4096`, log sectors have 4,096
        bytes instead of 512, and the disk has at least 8 sectors.
    data-layer <table line>
        A layer over the data disk, or over its layers so far: see "Layers".
    log-layer <table line>
        The same for the log's disk.

The other lines follow, `crash` only as the last one:

    w <id> <first> <count> <byte> [flush] [fua] [meta]
        Submits a write of `count` sectors, from sector `first` on. Each of its
        bytes is `byte`, two lower case hexadecimal digits. With `flush` the
        data disk is flushed first, and written only if that succeeds. With
        `fua` a write that succeeds is durable when it ends. `meta` is only
        noted in the log.
    f <id>
        Submits a flush. If it succeeds, it makes durable what had ended before
        it was submitted.
    d <id> <first> <count>
        Submits a discard.
    c <id>
        Ends that request, which must be open.
    r <first> <count>
        Reads from the data disk.
    mark <text>
        Puts a mark into the log. A mark waits for nothing, so it has no `c`.
        The text is all that follows `mark` and one space. It may be empty, but
        the space must be there. A log keeps its first 479 bytes, or its first
        4,063 if log sectors have 4,096 bytes.
    at <ms>
        Sets the time from here on, in milliseconds. It is 0 at first, and must
        not go back.
    turn
        Gives the log's writer one turn, which does nothing if no entry is
        queued.
    message data <layer> <text>
    message log <layer> <text>
        Sends a message to a `dust` layer of that disk. Layers count from 1, the
        lowest.
    close
        Ends recording, and writes the rest of the log with its end mark. No
        request may be open. Requests after it reach the data disk, but aren't
        logged.
    crash <pick> ..
        Cuts the power of the log's disk. The first pick is for the lowest
        unsynced sector, the second for the next one, and so on. A sector has k
        candidates, counted from 0: its durable value, and then the values that
        were written since, in order. If there is a pick for the sector, it
        keeps the candidate whose number is the remainder of pick / k. Otherwise
        it keeps its durable value. Picks that are left over change nothing.

An id is 1 to 16 characters, each `a` to `z` or `0` to `9`, and is submitted
only once. If log sectors have 4,096 bytes, each request must begin and end at a
multiple of 8 sectors; otherwise it is refused as 28 Unaligned.

A script without `close` ends after its last line, and its log lacks what wasn't
written by then.

### When a request reaches the disk

A request reaches the data disk at its `c` line, not when it is submitted. So a
read between the two lines finds what was there before. The time of the `c` line
decides what a `flakey` layer does with the request. In this script the layer
passes calls up to the time 10000, so the write fails:

    data 16
    log 32
    data-layer 0 16 flakey disk 0 10 5
    w a 5 1 41
    at 12000
    c a
    close

### The order of the log

The log has its entries in the order in which they are queued:

- A mark is queued at its line.
- A flush, and a write with `flush` or `fua`, are queued at their own `c` line.
- Any other write, or a discard, waits from its `c` line on. The `c` line of a
  flush, or of a write with `flush`, queues it if that was submitted after it
  began to wait. The `c` line of a write with `fua` queues it if the two
  overlap, whenever that write was submitted.
- A write with `fua` also queues a waiting request that it doesn't overlap, if
  that request overlaps another one which this write queues and which began to
  wait later. So requests that overlap keep their order.
- What still waits at `close` is queued there, before the end mark.

The waiting requests that a flush or a write queues come before it in the log,
in the order of their `c` lines. A request that failed is queued like one that
succeeded. For example, let `a`, `b` and `d` write the sectors 1, 2 and 1, and
`d` with `fua`. Then the lines

    c b
    c a
    c d
    mark m

queue `a`, `d` and `m`, and `b` still waits for a flush. The log's writer places
one queued entry at each `turn`, and all of them at `close`.

### How large the log must be

The log has a super block in its first log sector. Each entry takes one log
sector, and a write takes as many more as its data has. The last log sector is
never used. For example, one write of a sector, a flush and `close` need
`log 6`: 1 sector for the super block, 2 for the write, 1 for the flush, 1 for
the end mark, and the last one, which is unused. In a larger log nothing
differs. In a smaller one logging ends early, which `record` reports with the
word `logging_disabled` and the status 3.

## Scripts of `run`

A script of `run` has the same head with one more line, `seats`, and other lines
after it:

    seats <n>
        The number of seats. It is the third line.
    s<k> w <first> <count> <byte> [flush] [fua] [meta]
    s<k> f
    s<k> d <first> <count>
    s<k> mark <text>
        Seat number k, counted from 0, writes, flushes, discards, or puts a mark
        into the log.

Each seat is a thread that carries out its lines in their order, at time 0. It
goes on to the next line when a request is done. After a write with `fua` or a
mark, it first waits until the entry is durable in the log or logging has ended.
One more thread writes the log. Recording is closed when all seats are done. The
order of two seats' requests is left open.

## Layers

A table line asks for one layer. `length` is the layer's number of sectors, and
`offset` its first sector on the device below, where it must fit. `dev` may be
any word. Requests must fit in the top layer. A layer over a log with sectors of
4,096 bytes has at least 8 sectors.

    0 <length> linear <dev> <offset>
        Passes each call to the device below.
    0 <length> error
        Fails each call.
    0 <length> flakey <dev> <offset> <up> <down> [0]
        Passes each call for `up` seconds, then fails each call for `down`
        seconds, and so on from time 0.
    0 <length> flakey <dev> <offset> <up> <down> 1 <feature>
        The same, but in the `down` seconds `error_reads` fails only reads,
        `error_writes` fails everything else, and `drop_writes` reports a write,
        discard or flush as done without doing it, which is a lie.
    0 <length> fuse <dev> <offset> <calls>
        Passes this many writes, discards and flushes, and fails each later one.
        Reads always pass.
    0 <length> dust <dev> <offset> <blksz>
        Has bad blocks of `blksz` bytes. At first it has none, and they fail no
        call until messages list some and enable it.
    0 <length> delay <dev> <offset> <ms>
        Begins each call `ms` milliseconds later. Three more words
        `<dev> <offset> <ms>` may follow, whose `ms` is for writes, discards and
        flushes, and then three more, whose `ms` is for flushes. The device and
        the offset must be the same each time.

A dust layer takes the following messages, with one space between two words.
Blocks count from 0, and must begin within the layer.

    addbadblock <block> [<count>]
        Lists the block as bad, so that each read of it fails. The next `count`
        writes and discards of it fail too; without a `count` none does. The
        write or discard after these succeeds, and takes the block off the list.
    removebadblock <block>
        Takes the block off the list.
    clearbadblocks
        Takes all blocks off the list.
    enable
        From now on, listed blocks fail calls.
    disable
        From now on, they don't, as at first.

## What the commands do and print

A *status* such as `3 4` says that there are three entries, of which the last
uses sector 4 of the log. An empty log has the status `0 0`.

### `record SCRIPT LOG`

Runs a script, and writes its log. It prints:

- for `c`: `<id> ok` or `<id> failed`;
- for `r`: `read <first>+<count> ok ` and the first byte of each sector, as two
  digits each, joined; or `read <first>+<count> failed`;
- for a submission or a mark that found no memory: `<id> failed`, `mark failed`;
- at the end: the status of the entries that were placed, with the word
  `logging_disabled` after it if logging ended early;
- then, only if layers have lied: `lies <data> <log>`, the number of lies of the
  data disk's layers and of the log's.

While logging goes on, each prefix of the log replays to what a disk that got
these requests could hold if power failed there, provided that no layer of the
log lied. What it could hold follows from flush, FUA and completion.

### `run SCRIPT LOG`

Runs a script of seats, and writes its log. It prints a line for each seat, and
then status and lies as `record` does:

    seat <k>: <n> done <n> logged <n> failed <n> not logged <n> refused

The numbers say how many of the seat's lines were answered in each way. `logged`
counts writes with `fua` and marks whose entry is durable, and `not logged`
those for which logging ended first.

### `serve HEAD FIRST LOG [--marks FILE]`

Serves one client of the NBD protocol (fixed newstyle handshake, simple replies)
on standard input and output, and records its requests. HEAD is a script of
`record` that has only its head: `data`, `log` and layers. FIRST is the first
content of the data disk, and as large as it. LOG is written at the end of the
session, when the client disconnects or its bytes end.

Each request is submitted, done on the data disk and ended, one at a time.
Layers go by the milliseconds since the session began. A write with FUA is
answered when its entry is durable, or when logging has ended. Reads aren't
recorded. FLUSH, FUA and TRIM are offered. A long request is recorded in parts
of 2,048 sectors. If a write has FUA, each of its parts has it. A trim with FUA
is recorded as a discard and then a flush. With log sectors of 4,096 bytes
requests are whole blocks of 4,096 bytes. A request is answered EIO if a layer
fails it, EINVAL if it isn't whole blocks or isn't known, ENOSPC past the end,
and ENOMEM if memory ran out. If logging ends, the session goes on unrecorded,
and the exit status is 3.

Each line that is appended to FILE becomes a mark, before the next request or at
the end. What `record` prints at its end goes to standard error.

### `list LOG`

Prints `super version 1 entries <n> sectorsize <S>`. Then it prints, for each
entry, `<number> @<log sector>` and one of these:

    mark <text>
    discard <sector>+<sectors>
    flush [fua] [meta]
    write <sector>+<sectors> [flush] [fua] [meta]

In a mark's text, a backslash and each byte outside 20 to 7e (hexadecimal) are
printed as a backslash and two lower case hexadecimal digits.

### `status LOG`

Prints a status: how many entries the super block counts, as `list` does, and
the highest sector that they use.

### `replay LOG FIRST OUT WHAT`

Applies a prefix of the log to the image FIRST, and writes the result to OUT,
which has the same size. It prints `replayed <n>`, the number of applied
entries. WHAT names the prefix:

    entries:<n>        the first n entries
    mark:<text>        all up to the first mark of exactly this text
    flush              all up to the first flush

OUT may be the file FIRST, but not LOG. Images have sectors of 512 bytes, even
if the log's are larger.

### `copy LOG OUT SECTORS`

Copies the log to a new one with log sectors of 4,096 bytes, on a disk of
SECTORS sectors of 512 bytes. It prints `copied <n>`, the number of entries.
Each keeps its flags, its data or text, its order, and its place and length in
bytes. So each prefix of the copy replays to the same image as that prefix of
LOG. OUT must not be LOG.

`replay` and `copy` write OUT only if they applied or copied all these entries.
They do so after they have printed, so only the exit status 0 means that it was
written.

### `judge SCRIPT M IMAGE`

Runs the script as `record` does, but writes no log. Then it says whether the
image could be on the data disk, seen from the top of its layers, if power
failed after the recorder's first M events. The disk holds zeroes at first. It
prints one of

    yes
    no sector <s> ruled out by event <p>
    no sector <s> holds no submitted value

Both other lines mean no. The second names the durable request, event p, that
rules out what sector s holds. The third is printed if no durable request covers
the sector, but it holds neither zeroes nor a submitted value.

The lines `w`, `f`, `d`, `c` and `mark`, up to `close`, and `close` itself are
events. They count from 0. What follows `close` isn't an event. For a script
that has `close` as its last line or none, this command lists them:

    awk '/^(w|f|d|c|mark) |^close$/ { print ++m, $0 }' examples/first-run.script

It prints each event with the M that comes after it:

    1 w a 5 1 41
    2 c a
    3 f b
    4 c b
    5 close

If logging ends early, because the log is full, its device failed or memory ran
out, the recorder adds an event, the Stop.

### `path SCRIPT M IMAGE`

If `judge` would say no, prints its line. Otherwise it prints how the image
could have come to the disk: steps of a device with a cache that submit and end
the requests of the first M events in their order, and leave the image.

    submit <id>             the request of event number id is submitted
    land <id> <sector>      its value reaches the cache, for one sector
    destage <sector>        its value in the cache becomes what power leaves
    end <id> ok             the request ends; or `end <id> failed`
    power                   power fails: the last step

Several runs may lead to an image. Which of them is printed is left open.

## Exit status

    0  Done.
    1  Refused: standard error has the fault. Or `judge` or `path` printed a no,
       and standard error has nothing.
    2  The command line isn't one of the program's.
    3  Logging ended early: the log is full, its device failed, or memory ran
       out. The log is written as far as it came, unless none could be made.

## Faults

A fault is one line on standard error. The second form is for a script's line,
and the third for a replay or a copy that stopped:

    dmlw: <number> <name>
    dmlw: line <n>: <number> <name>
    dmlw: <number> <name> after <n> entries

     2 Memory         memory ran out; at a `close` or a message of a script the
                      fault has its line
     3 PastEnd        a request reaches past the disk's end
     4 TooLong        a request has over 2,048 sectors
     5 NotWhole       a request has no sector
     6 BadMessage     no layer takes this message
     7 AlreadyBad     a message adds a block that is listed
     8 NotBad         a message removes a block that isn't listed
     9 UnknownTarget  a table line has no known target
    10 WrongCount     a table line has a wrong number of words
    11 BadNumber      a table line has another word in a number's place
    12 OutOfRange     a table line's number is out of range, or the layer ends
                      past the device below
    13 BadMagic       the image isn't a log
    14 BadVersion     the log has another version
    15 BadSectorSize  log sectors aren't 512, 1024, 2048 or 4096 bytes
    16 BadMark        a mark in the log has sectors, or a text that is too long
    17 TooLarge       an entry in the log ends past byte 2^63 - 1 of the data
                      disk
    18 Full           the next entry doesn't fit on the disk of a copy
    19 Device         no log could be made, because its device failed (status 3)
    20 Memory         memory ran out when a log was to be made (status 3), or in
                      the log of a copy (status 1)
    21 CutShort       the log is shorter than it says
    24 Busy           a request is open at a `close`
    25 NoSuchMark     the log lacks the mark to replay up to
    26 NoFlush        the log has no flush to replay up to
    27 PastTarget     an entry to replay reaches past the image's end
    28 Unaligned      log sectors have 4,096 bytes, but a request's first sector
                      or count isn't a multiple of 8, or the place or length of
                      an entry to copy isn't a multiple of 4,096 bytes
    29 BadFeature     a flakey layer has no such feature
    30 BadLine        a script can't have this line, or not in this place; a
                      disk gets a fifth layer; a log's layer is smaller than a
                      log sector; the time goes back; there is no such seat
    31 BadId          an id is submitted twice, or ended while it isn't open
    32 File           a file or the output can't be read or written; a script is
                      too long; an image isn't whole sectors within the limits;
                      LOG is SCRIPT, or OUT is LOG
    33 PastEntries    the log counts fewer entries than are to be replayed
    34 BadMoment      M is past the last event or past the Stop, or the image
                      isn't as large as the data disk
    37 Foreign        a run's seats or log don't agree with its history
    38 NoThread       the thread that writes a run's log can't be started;
                      nothing was run

`crates/refusals` has the whole table; no command reports the other numbers.

A usage fault has the status 2, and is reported before any file is read. It
means that M, the n of `entries:<n>` or SECTORS isn't a number within its
limits, that WHAT has none of the forms above, or that a file's name isn't UTF-8
text.

## Limits

    a script                  4,194,304 bytes
    a disk, a layer, FIRST    1 to 1,048,576 sectors (512 to 536,870,912 bytes)
    log sectors of 4,096      the disk (`log`, SECTORS) has at least 8 sectors
    layers                    four over each disk
    a request                 1 to 2,048 sectors
    seats                     1 to 64
    `up` and `down`           together 1 to 4,294,967,295 seconds
    `ms` of a delay           up to 4,294,967,295
    `blksz`                   a power of two, 512 to 1,073,741,824
    `count` of a bad block    0 to 255
    M, n of `entries:<n>`     1 to 20 decimal digits, below 2^64

## The bytes of a log

A log has the format of the kernel's dm-log-writes, version 1. All numbers are
little-endian. S is the size of a log sector in bytes. The log's first sector is
the super block:

    Byte  Bytes  Value
       0      8  the magic number, 72 68 73 77 66 73 6a 00
       8      8  the version, 1
      16      8  the number of entries that are counted
      24      4  S: 512, 1024, 2048 or 4096
      28         zeroes, which aren't looked at when the log is read

Each entry begins at a log sector, the first one at log sector 1:

    Byte  Bytes  Value
       0      8  the first sector on the data disk, in units of S bytes
       8      8  the number of sectors, in units of S bytes
      16      8  the sum of the flags
      24      8  the length of a mark's text, else 0
      32         a mark's text, and zeroes up to the end of the log sector

    Flag  Name
       1  FLUSH
       2  FUA
       4  DISCARD
       8  MARK
      16  METADATA

A write's data follows in the next log sectors. A flush has no sectors and the
flag FLUSH. For an empty flush and a mark both sector fields are 0. The super
block is rewritten after each entry with FUA or MARK, and counts the entries up
to that one. Where S is more than 512, a replay multiplies both sector fields by
S / 512.

When a log is read, other bits of the flags are dropped, and the length of the
text is looked at only for a mark. MARK is looked at first, then DISCARD. An
entry may have more sectors than a script's request. It is refused as 16 BadMark
if a mark has sectors or a text of more than S - 32 bytes, as 17 TooLarge if it
ends past byte 2^63 - 1 of the data disk, and as 21 CutShort if it or its data
isn't wholly in the log. docs/KERNEL.md says what the kernel's logs have beside
that.

After `./dmlw record examples/first-run.script first-run.log` the command
`od -A d -t x1 -N 32 first-run.log` prints its first bytes:

    0000000 72 68 73 77 66 73 6a 00 01 00 00 00 00 00 00 00
    0000016 03 00 00 00 00 00 00 00 00 02 00 00 00 00 00 00
    0000032

## With `--explain`

The word `--explain`, anywhere after the program's name, adds lines to standard
error after the fault's line, and changes no other line. Each begins with two
spaces. They say:

- for a script's line: the line, its number, the form that it should have, and
  the usual cause if it is seen (a carriage return, a byte order mark, a tab, an
  upper case letter). If none is seen, they name the first word that doesn't
  fit, or say what has to come at this place.
- for a log: how many entries it has, or the next entry; for an image: its size;
  for a file: its name and the system's reason
- if `judge` says no: the line of the event that rules the sector out; for a run
  of `path`: the script's line for each step
- at status 0: that a script has no `close`

The wording of these lines may change, but all other lines keep theirs. The
program adds the word itself if the variable `DMLW_EXPLAIN` is `1`. The
launchers `./dmlw` and `dmlw`, if it is installed, also add it at a terminal,
unless the variable is `0`. Input from a pipe is
explained from the bytes that were read, if they are at most 4,194,304. To name
a file called `--explain`, write `./--explain`.
"#;
