//! Tests of a recorder with one seat: its calls, their time at the device, a close before
//! `ask_close`, and a close that writes the whole log itself. Two recorders exchange their seats.
ghost use Rattle.std.specs.Prelude.{◌≡◌, ℕ};
ghost use Rattle.thread_tests.specs.Disks.{disk_ground};

use bio::{Bio, Bytes, DevError, End, Ms, Status};
use blockdev::BlockDev;
use board::{Names, StatusSeat};
use lock_state::Run;
use refusals::Refusal;
use sector_disk::SectorDisk;
use shared::{Answer, Ending, MarkAnswer, Mismatch, Shared, Started, Unclosed, Unnamed};
use std::alloc::Global;
use std::io::Print;
use std::marker::Brand;
use std::process::Abort;
use std::sync::Wait;
use std::test::*;
use test_devices::is_told;

// Each disk has this many sectors.
const SECTORS: u64 = 16;

// Each request is submitted at this time.
const MOMENT: u64 = 5;

// The calls of the seat, and after `=` their answers. A letter is a call: `w` writes 7 to sector 1,
// `x` writes 9 to sector 2, `u` writes 7 to sector 1 with FUA, `f` flushes, `d` discards sector 1,
// and `r` reads both sectors. `m` is a mark, `g` ends logging for lack of memory, `a` is `ask_close`,
// `l` is the writer's loop, and `s` reads the status. Then the recorder is closed. If that is busy,
// the calls after `|` are made, and it is closed again.
//
// An answer is a letter too: `d` done, `f` read 7 and 9, `o` read something else, `l` logged, `m`
// not logged for lack of memory, `n` not logged, `x` refused since recording was closed, `e`
// another refusal, `b` busy. A status is the last digits of its entries and its sector, and `e` if
// the log has ended. A close that is Ok shows a colon, the status, and how many items are placed,
// are settled, and were placed by the writer. Then comes `n` if logging hadn't ended and no waiter
// was released, `p` if that status was published last (only the writer publishes), and `t` if the
// device's last call began at `MOMENT`. At the end is the last digit of how many calls the device
// did.
const ROWS: &str = "\
w|aa=dbdd:23220nt1
swfxrals=00dddfd.46:46444npt4
guwm=.mdmbb
waum=dddx:23220nt2
fa=dd:22220nt1
da=dd:22220nt1
ra=od:11110nt1
aw=dd:11110nt1
af=dd:11110nt1
ad=dd:11110nt1
ar=do:11110nt1";

// A device that notes the time of its last call, and counts its calls.
#[derive(Drop)]
struct Timed<D: BlockDev + Drop> {
    lower: D,
    last: Ms,
    calls: u64,
}

impl<D: BlockDev + Drop> Timed<D> {
    fn new(lower: D) -> Timed<D>
        ensures { result.lower ≡ lower }
    {
        Timed {
            lower,
            last: Ms::new(0),
            calls: 0,
        }
    }

    // Notes a call.
    fn note(&mut self, now: Ms)
        ensures { self.new.lower ≡ self.old.lower }
    {
        self.last = now;
        self.calls = self.calls.saturating_add(1);
    }
}

impl<D: BlockDev + Drop> BlockDev for Timed<D> {
    ghost shown = { λ device. D.shown device.lower };

    ghost does = { λ _ _ _ _ _. Unit {0} };

    fn sectors(&self) -> u64 {
        self.lower.sectors()
    }

    fn read(&mut self, now: Ms, first: u64, buffer: &mut [u8]) -> Result<Ms, DevError> {
        self.note(now);
        self.lower.read(now, first, buffer)
    }

    fn write(&mut self, now: Ms, first: u64, bytes: &[u8], fua: bool) -> Result<Ms, DevError> {
        self.note(now);
        self.lower.write(now, first, bytes, fua)
    }

    fn discard(&mut self, now: Ms, first: u64, count: u64) -> Result<Ms, DevError> {
        self.note(now);
        self.lower.discard(now, first, count)
    }

    fn flush(&mut self, now: Ms) -> Result<Ms, DevError> {
        self.note(now);
        self.lower.flush(now)
    }

    fn faults(&self) -> u64 {
        self.lower.faults()
    }

    fn lies(&self) -> u64 {
        self.lower.lies()
    }

    ghost lawful = { λ device. D.lawful device.lower };
}

// The device of these tests.
type Device = Timed<SectorDisk>;

// Starts a recorder with one seat and one reader on two disks.
fn start<R: Run + Names, H: Abort>(
    rt: &H,
    alloc: Global,
    unnamed: Unnamed,
) -> Started<Device, SectorDisk, R>
    requires ledger { (unnamed.ledger.name ≡ R.name) × (unnamed.ledger.parts ≡ R.parts)
        × (unnamed.ledger.parts ≡ 1) }
    requires table { (unnamed.table ≡ R.table) × (unnamed.stops ≡ R.stops)
        × (unnamed.ends ≡ R.ends) × (unnamed.reads ≡ R.reads) }
    requires board { unnamed.board ≡ R.board }
    requires sectors { (R.sectors ≡ 16) × (R.log ≡ disk_ground 16) }
    requires begins { (reading : ℕ) → R.begins reading }
    requires sector_size { R.sector_bytes ≡ 512 }
{
    let device = Timed::new(SectorDisk::new(alloc, SECTORS).expect(rt, "memory"));
    let log = SectorDisk::new(alloc, SECTORS).expect(rt, "memory");
    Shared::new(alloc, unnamed, device, log, 1, 1)
        .ok()
        .expect(rt, "a recorder starts")
}

// Returns a write of one sector that is filled with `byte`.
fn write(rt: &impl Abort, alloc: Global, first: u64, byte: u8, fua: bool) -> Bio {
    Bio::Write {
        first,
        bytes: Bytes::from_vec(vec![in alloc; byte; 512].expect(rt, "memory")),
        flush: false,
        fua,
        meta: false,
    }
}

// Returns the request of a letter; a flush for an unknown one.
fn bio_of(rt: &impl Abort, alloc: Global, letter: char) -> Bio {
    match letter {
        'w' => write(rt, alloc, 1, 7, false),
        'x' => write(rt, alloc, 2, 9, false),
        'u' => write(rt, alloc, 1, 7, true),
        'd' => Bio::Discard { first: 1, count: 1 },
        'r' => Bio::Read { first: 1, count: 2 },
        _ => Bio::Flush,
    }
}

// Returns the letter of a read's answer.
fn read_letter(bytes: &[u8]) -> char {
    let (one, other) = bytes.split_at(bytes.len() / 2);
    let is_found = one.len() == 512
        && one.iter().all(|&byte| byte == 7)
        && other.iter().all(|&byte| byte == 9);
    if is_found { 'f' } else { 'o' }
}

fn answer_letter<C>(answer: &Answer<C>) -> char {
    match answer {
        Answer::Done => 'd',
        Answer::Read(bytes) => read_letter(bytes.as_slice()),
        Answer::Logged(_) => 'l',
        Answer::NotLogged(End::Memory) => 'm',
        Answer::NotLogged(_) => 'n',
        Answer::Failed(_) | Answer::Refused(_) => 'e',
    }
}

fn mark_letter<C>(answer: &MarkAnswer<C>) -> char {
    match answer {
        MarkAnswer::Logged(_) => 'l',
        MarkAnswer::NotLogged(End::Memory) => 'm',
        MarkAnswer::NotLogged(_) => 'n',
        MarkAnswer::Refused(refusal) => {
            if Refusal::from(*refusal).number() == 36 {
                'x'
            } else {
                'e'
            }
        }
    }
}

// Returns the last digit of a number.
fn digit(number: u64) -> char {
    ((number % 10) as u8 + 48) as char
}

// Makes the call of a letter, and adds its answer to `said`.
fn make<R: Run + Names, H: Wait + Abort>(
    rt: &H,
    alloc: Global,
    started: &mut Started<Device, SectorDisk, R>,
    letter: char,
    said: &mut String,
) {
    let seat = started.seats.last_mut().expect(rt, "a seat");
    let answer = match letter {
        'a' => if started.recorder.ask_close(rt).is_ok() {
            'd'
        } else {
            'b'
        },
        'g' => {
            started.recorder.give_up(rt);
            '.'
        }
        'l' => {
            started.recorder.write_loop(rt, &mut started.writer);
            '.'
        }
        'm' => mark_letter(&started.recorder.mark(rt, seat, &[120])),
        's' => {
            let reader = started.readers.last_mut().expect(rt, "a reader");
            show_status(rt, started.recorder.status(reader), said);
            return;
        }
        _ => {
            let bio = bio_of(rt, alloc, letter);
            answer_letter(&started.recorder.submit(rt, seat, bio, Ms::new(MOMENT)))
        }
    };
    said.push(answer).expect(rt, "memory");
}

fn show_status(rt: &impl Abort, status: Status, said: &mut String) {
    said.push(digit(status.entries)).expect(rt, "memory");
    said.push(digit(status.sector)).expect(rt, "memory");
    if status.end.is_some() {
        said.push('e').expect(rt, "memory");
    }
}

// Makes the calls of the letters in order.
fn make_all<R: Run + Names, H: Wait + Abort>(
    rt: &H,
    alloc: Global,
    started: &mut Started<Device, SectorDisk, R>,
    calls: &[u8],
    said: &mut String,
) {
    for &letter in calls {
        make(rt, alloc, started, letter as char, said);
    }
}

// Adds the status and the items of a close that is Ok, and whether logging went on until then.
fn show<R: Run + Names>(
    rt: &impl Abort,
    ending: &Ending<Device, SectorDisk, R>,
    said: &mut String,
) {
    let closed = &ending.closed;
    said.push(':').expect(rt, "memory");
    show_status(rt, closed.status, said);
    for number in [closed.placed.len() as u64, closed.settled, ending.written] {
        said.push(digit(number)).expect(rt, "memory");
    }
    if closed.end.is_none() && ending.released.is_none() && ending.found.is_none() {
        said.push('n').expect(rt, "memory");
    }
}

// Adds whether the log's status was published last, whether the device's last call began at
// `MOMENT`, and how many calls the device did. The statuses that the reader read are a prefix of
// the published ones.
fn show_published<R: Run + Names>(
    rt: &impl Abort,
    ending: &mut Ending<Device, SectorDisk, R>,
    readers: &mut Vec<StatusSeat<R>>,
    said: &mut String,
) {
    ending
        .published
        .agree(readers.last_mut().expect(rt, "a reader"));
    if ending.published.last() == ending.closed.status {
        said.push('p').expect(rt, "memory");
    }
    if ending.closed.device.last == Ms::new(MOMENT) {
        said.push('t').expect(rt, "memory");
    }
    said.push(digit(ending.closed.device.calls))
        .expect(rt, "memory");
}

// Closes a recorder, and adds what the close shows. Returns the recorder if the close is busy.
fn close<R: Run + Names>(
    rt: &impl Abort,
    alloc: Global,
    started: Started<Device, SectorDisk, R>,
    said: &mut String,
) -> Option<Started<Device, SectorDisk, R>> {
    let Started {
        recorder,
        seats,
        writer,
        mut readers,
    } = started;
    match recorder.close(seats, writer, Vec::new(alloc)) {
        Ok(mut ending) => {
            show(rt, &ending, said);
            show_published(rt, &mut ending, &mut readers, said);
            None
        }
        Err(Unclosed::Busy(back)) => {
            said.push('b').expect(rt, "memory");
            Some(Started {
                recorder: back.recorder,
                seats: back.seats,
                writer: back.writer,
                readers,
            })
        }
        Err(Unclosed::Foreign(back)) => {
            show_foreign(rt, &back, said);
            None
        }
    }
}

// Adds whether a close that is refused as foreign returns the seat, and whether nothing is placed or
// published.
fn show_foreign<R: Run + Names>(
    rt: &impl Abort,
    back: &Mismatch<Device, SectorDisk, R>,
    said: &mut String,
) {
    let is_back = back.seats.len() == 1 && back.closed.placed.is_empty();
    let is_unpublished = back.published.last().entries == 0;
    said.push(if is_back && is_unpublished { 'F' } else { 'e' })
        .expect(rt, "memory");
}

// Starts a recorder, makes the calls, and closes it; if that is busy, makes the later calls and
// closes it again.
fn play<R: Run + Names, H: Wait + Abort>(
    rt: &H,
    alloc: Global,
    unnamed: Unnamed,
    calls: &[u8],
    later: &[u8],
    said: &mut String,
)
    requires ledger { (unnamed.ledger.name ≡ R.name) × (unnamed.ledger.parts ≡ R.parts)
        × (unnamed.ledger.parts ≡ 1) }
    requires table { (unnamed.table ≡ R.table) × (unnamed.stops ≡ R.stops)
        × (unnamed.ends ≡ R.ends) × (unnamed.reads ≡ R.reads) }
    requires board { unnamed.board ≡ R.board }
    requires sectors { (R.sectors ≡ 16) × (R.log ≡ disk_ground 16) }
    requires begins { (reading : ℕ) → R.begins reading }
    requires sector_size { R.sector_bytes ≡ 512 }
{
    let started = Some(start::<R, H>(rt, alloc, unnamed));
    let busy = go_on(rt, alloc, started, calls, said);
    let _ = go_on(rt, alloc, busy, later, said);
}

// Makes the calls of a part, and closes the recorder.
fn go_on<R: Run + Names, H: Wait + Abort>(
    rt: &H,
    alloc: Global,
    at: Option<Started<Device, SectorDisk, R>>,
    calls: &[u8],
    said: &mut String,
) -> Option<Started<Device, SectorDisk, R>> {
    let mut started = at?;
    make_all(rt, alloc, &mut started, calls, said);
    close(rt, alloc, started, said)
}

// Exchanges the calls of the seats of two recorders.
fn exchange<B: Run + Names, C: Run + Names>(
    rt: &impl Abort,
    one: &mut Started<Device, SectorDisk, B>,
    other: &mut Started<Device, SectorDisk, C>,
    said: &mut String,
) {
    let mine = one.seats.last_mut().expect(rt, "a seat");
    let others = other.seats.last_mut().expect(rt, "a seat");
    let is_exchanged = mine.exchange_calls(others);
    said.push(if is_exchanged { 'y' } else { 'n' })
        .expect(rt, "memory");
}

// The seats of two recorders are swapped. Each close is refused as `Foreign`, and returns the seat.
fn foreign_seats<B: Run + Names, C: Run + Names, H: Wait + Abort>(
    rt: &H,
    alloc: Global,
    unnamed: Unnamed,
    other: Unnamed,
    said: &mut String,
)
    requires ledger { (unnamed.ledger.name ≡ B.name) × (unnamed.ledger.parts ≡ B.parts)
        × (unnamed.ledger.parts ≡ 1) }
    requires table { (unnamed.table ≡ B.table) × (unnamed.stops ≡ B.stops) × (unnamed.ends ≡ B.ends)
        × (unnamed.reads ≡ B.reads) × (unnamed.board ≡ B.board) }
    requires sectors { (B.sectors ≡ 16) × (C.sectors ≡ 16) }
    requires logs { (B.log ≡ disk_ground 16) × (C.log ≡ disk_ground 16) }
    requires begins { (reading : ℕ) → B.begins reading }
    requires sector_size { (B.sector_bytes ≡ 512) × (C.sector_bytes ≡ 512) }
    requires other_ledger { (other.ledger.name ≡ C.name) × (other.ledger.parts ≡ C.parts)
        × (other.ledger.parts ≡ 1) }
    requires other_begins { (reading : ℕ) → C.begins reading }
    requires other_table { (other.table ≡ C.table) × (other.stops ≡ C.stops) × (other.ends ≡ C.ends)
        × (other.reads ≡ C.reads) × (other.board ≡ C.board) }
{
    let mut one = start::<B, H>(rt, alloc, unnamed);
    let mut another = start::<C, H>(rt, alloc, other);
    make_all(rt, alloc, &mut one, b"wa".as_slice(), said);
    make_all(rt, alloc, &mut another, b"xa".as_slice(), said);
    exchange(rt, &mut one, &mut another, said);
    let _ = close(rt, alloc, one, said);
    let _ = close(rt, alloc, another, said);
}

// Returns the answers of a new recorder to these calls.
fn answers<H: Wait + Abort>(rt: &H, alloc: Global, calls: &[u8], later: &[u8]) -> String {
    let unnamed = Unnamed::new(alloc, 1).expect(rt, "memory");
    let mut said = String::new(alloc);
    play::<Brand, H>(rt, alloc, unnamed, calls, later, &mut said);
    said
}

// Returns whether a new recorder gives the answers of a row.
fn is_row<H: Wait + Abort + Print>(rt: &H, alloc: Global, row: &str) -> bool {
    let (calls, wanted) = row.split_once('=').unwrap_or_default();
    let (calls, later) = calls.split_once('|').unwrap_or((calls, ""));
    let said = answers(rt, alloc, calls.as_bytes(), later.as_bytes());
    is_told(rt, said.as_str(), wanted, row)
}

#[test]
fn a_seat_has_the_answers_of_each_row(rt: HostRuntime) -> Result<(), Fail> {
    let mut are_rows = true;
    for row in ROWS.split('\n') {
        are_rows = is_row(&rt, rt.alloc(), row) && are_rows;
    }
    assert!(rt; are_rows);
    Ok(())
}

// Returns what two recorders say whose seats are exchanged.
fn exchanged<H: Wait + Abort>(rt: &H, alloc: Global) -> String {
    let unnamed = Unnamed::new(alloc, 1).expect(rt, "memory");
    let other = Unnamed::new(alloc, 1).expect(rt, "memory");
    let mut said = String::new(alloc);
    foreign_seats::<Brand, Brand, H>(rt, alloc, unnamed, other, &mut said);
    said
}

#[test]
fn two_recorders_find_each_others_calls(rt: HostRuntime) -> Result<(), Fail> {
    let said = exchanged(&rt, rt.alloc());
    assert!(rt; is_told(&rt, said.as_str(), "ddddyFF", "exchanged seats"));
    Ok(())
}
