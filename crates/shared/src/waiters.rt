// How threads wait for each other: a thread first looks at a number for a while, and then waits at a
// condition variable. No contract says that a thread is woken.

ghost use Rattle.std.specs.Prelude.{◌<◌, ◌≡◌, IfOk, IfSome, length};

use bio::Id;
use crossbeam_utils::CachePadded;
use lock_state::{Receipt, Run};
use std::alloc::{AllocError, Global};
use std::hint::spin_loop;
use std::marker::Model;
use std::sync::atomic::{AtomicU64, Ordering};
use std::sync::{Condvar, Mutex, MutexGuard, Wait};

// A thread looks this often. On one processor this took 100 microseconds; a thread was woken in 17.
const LOOKS: u64 = 16_000;

// After a look in vain, at most this many waits don't look.
const MOST_SKIPS: u64 = 1023;

// With at most this many seats each waiting thread looks. With more, a thread looks only if it is the
// only one that waits.
const FEW_SEATS: u64 = 2;

// There are this many shards of receipts. No recorder has more seats.
const SHARDS: usize = 64;

// Whether a wait first looks at a number that rises when the thread may go on. To look at it for a
// short time costs less CPU time than to sleep and be woken; to look in vain costs more. So after a
// look in vain the next wait doesn't look, and after each further one twice as many don't.
//
// Nothing rests on the number. Whether a thread may go on is found under a lock, and a thread that
// looked in vain waits at a condition variable.
#[derive(Drop)]
struct Looks {
    // How many of the next waits don't look.
    skips: AtomicU64,
    // How many waits didn't look after the last look, if it was in vain.
    skipped: AtomicU64,
}

impl Looks {
    fn new() -> CachePadded<Looks> {
        CachePadded::new(Looks {
            skips: AtomicU64::new(0),
            skipped: AtomicU64::new(0),
        })
    }

    // Returns whether the number is greater than `seen`, or becomes so while the thread looks.
    fn passes(&self, number: &AtomicU64, seen: u64) -> bool {
        if self.skips_look() {
            return number.load(Ordering::SeqCst) > seen;
        }
        self.look(number, seen)
    }

    // Returns whether a wait doesn't look, since an earlier look was in vain.
    fn skips_look(&self) -> bool {
        let skips = self.skips.load(Ordering::Relaxed);
        if skips == 0 {
            return false;
        }
        self.skips.store(skips - 1, Ordering::Relaxed);
        true
    }

    // Looks for a while whether the number is greater than `seen`. Returns whether it is.
    fn look(&self, number: &AtomicU64, seen: u64) -> bool {
        for _ in 0..LOOKS {
            if number.load(Ordering::SeqCst) > seen {
                self.skip_none();
                return true;
            }
            spin_loop();
        }
        self.skip_more();
        false
    }

    // Notes that a look wasn't in vain. Seldom writes, so that other processors can keep the value.
    fn skip_none(&self) {
        if self.skipped.load(Ordering::Relaxed) > 0 {
            self.skipped.store(0, Ordering::Relaxed);
        }
    }

    // Lets twice as many waits not look as after the last look in vain, and one more.
    fn skip_more(&self) {
        let skipped = self.skipped.load(Ordering::Relaxed);
        let skips = skipped.saturating_mul(2).saturating_add(1).min(MOST_SKIPS);
        self.skipped.store(skips, Ordering::Relaxed);
        self.skips.store(skips, Ordering::Relaxed);
    }
}

// How the writer waits for work: an item to take, or the end of logging or of recording. Whoever
// changes this under the queue's lock wakes the writer afterwards.
#[derive(Drop)]
pub(crate) struct WriterWait {
    // How often the writer was woken.
    wakes: CachePadded<AtomicU64>,
    // How often it had been woken when it last held the queue's lock. Only the writer uses this.
    seen: CachePadded<AtomicU64>,
    looks: CachePadded<Looks>,
    condition: Condvar,
}

impl WriterWait {
    pub(crate) fn new() -> WriterWait {
        WriterWait {
            wakes: CachePadded::new(AtomicU64::new(0)),
            seen: CachePadded::new(AtomicU64::new(0)),
            looks: Looks::new(),
            condition: Condvar::new(),
        }
    }

    pub(crate) fn wake(&self) {
        self.wakes.fetch_add(1, Ordering::SeqCst);
        self.condition.notify_one();
    }

    // Notes how often the writer was woken. The writer calls this while it holds the queue's lock.
    pub(crate) fn see_wakes(&self) {
        let wakes = self.wakes.load(Ordering::SeqCst);
        self.seen.store(wakes, Ordering::Relaxed);
    }

    // If the writer looks, returns whether it was woken since it last held the queue's lock, or is
    // woken while it looks.
    pub(crate) fn is_woken(&self, looks: bool) -> bool {
        let seen = self.seen.load(Ordering::Relaxed);
        looks && self.looks.passes(&self.wakes, seen)
    }

    // Releases the queue's lock, waits until the writer is woken, and takes the lock again.
    pub(crate) fn wait<'a, H: Wait, T>(
        &self,
        rt: &H,
        desk: MutexGuard<'a, T>,
    ) -> MutexGuard<'a, T> {
        self.condition.wait(rt, desk)
    }
}

// What the writer last published in a shard.
#[derive(Drop)]
struct PublishedReceipt<R: Run> {
    // The receipt, until its thread takes it.
    receipt: Option<Receipt<R>>,
    // How many items were settled then.
    settled: u64,
    // Logging ended.
    ended: bool,
}

// Where threads wait whose ids have the same remainder by 64. A receipt replaces the last one, so a
// thread that doesn't find its own there looks into the log.
#[derive(Drop)]
struct Shard<R: Run> {
    // How many items were settled when a receipt was last published, for threads that look.
    settled: CachePadded<AtomicU64>,
    published: Mutex<PublishedReceipt<R>>,
    condition: Condvar,
}

impl<R: Run> Shard<R> {
    fn new() -> Shard<R> {
        Shard {
            settled: CachePadded::new(AtomicU64::new(0)),
            published: Mutex::new(PublishedReceipt {
                receipt: None,
                settled: 0,
                ended: false,
            }),
            condition: Condvar::new(),
        }
    }
}

// How a thread waits for its receipt. Threads wait only for marks and for writes with FUA, each of
// which is settled when it is placed. So a settle concerns only the id in hand, and an end concerns
// all threads.
//
// No wake-up is lost. What a thread waits for changes only under its shard's lock. The waiting
// thread holds this lock from its look until it waits. A thread that makes the change wakes the
// waiting threads of the shard afterwards.
#[derive(Drop)]
pub(crate) struct Waiters<R: Run> {
    shards: Vec<Shard<R>>,
    looks: CachePadded<Looks>,
    // How many threads wait; 0 with few seats, since a count that all change costs time.
    waiting: CachePadded<AtomicU64>,
    few_seats: bool,
}

// Only the number of shards is promised. With the shards in the model each proof about `Shared`
// took too long.
impl<R: Run> Model for Waiters<R> {
    ghost use Rattle.std.specs.Prelude.{◌≡◌, length};

    ghost Value = { Unit {0} };

    ghost view = { λ _. tt };

    ghost invariant = { λ waiters. length waiters.shards.items ≡ 64 };
}

impl<R: Run> Waiters<R> {
    // Returns shards without receipts, for this many seats.
    pub(crate) fn new(alloc: Global, seats: u64) -> Result<Waiters<R>, AllocError> {
        Ok(Waiters {
            shards: empty_shards(alloc)?,
            looks: Looks::new(),
            waiting: CachePadded::new(AtomicU64::new(0)),
            few_seats: seats <= FEW_SEATS,
        })
    }

    // Returns whether there are at most two seats.
    pub(crate) fn has_few_seats(&self) -> bool {
        self.few_seats
    }

    // Counts this thread as one that waits, until it leaves.
    pub(crate) fn enter(&self) {
        if !self.few_seats {
            self.waiting.fetch_add(1, Ordering::SeqCst);
        }
    }

    pub(crate) fn leave(&self) {
        if !self.few_seats {
            self.waiting.fetch_sub(1, Ordering::SeqCst);
        }
    }

    // Waits until a receipt is published in the shard of this id after more than `from` items are
    // settled, or until logging has ended. Returns the receipt of this id. Returns None if the
    // shard has another one or none; then the entry may be in the log.
    pub(crate) fn wait<H: Wait>(&self, rt: &H, id: Id, from: u64) -> Option<Receipt<R>>
        ensures { IfSome result (λ receipt. receipt.id ≡ id) }
    {
        let shard = &self.shards[shard_of(id)];
        if self.waiting.load(Ordering::SeqCst) <= 1 {
            self.looks.passes(&shard.settled, from);
        }
        let mut published = shard.published.lock(rt);
        for _ in rt.forever() {
            if let Some(receipt) = published.take(id) {
                return Some(receipt);
            }
            if published.ended || published.settled > from {
                return None;
            }
            published = shard.condition.wait(rt, published);
        }
        unreachable!()
    }

    // Publishes a receipt, since `settled` items are settled, and wakes the threads of its shard.
    pub(crate) fn publish<H: Wait>(&self, rt: &H, receipt: Receipt<R>, settled: u64) {
        let shard = &self.shards[shard_of(receipt.id())];
        let mut published = shard.published.lock(rt);
        published.receipt = Some(receipt);
        published.settled = settled;
        drop(published);
        shard.condition.notify_all();
        shard.settled.store(settled, Ordering::Release);
    }

    // Wakes all waiting threads, since logging ended.
    pub(crate) fn end<H: Wait>(&self, rt: &H) {
        for shard in &self.shards {
            let mut published = shard.published.lock(rt);
            published.ended = true;
            drop(published);
            shard.condition.notify_all();
            shard.settled.store(u64::MAX, Ordering::Release);
        }
    }
}

impl<R: Run> PublishedReceipt<R> {
    // Takes the receipt if it is that of this id.
    fn take(&mut self, id: Id) -> Option<Receipt<R>>
        ensures { IfSome result (λ receipt. receipt.id ≡ id) }
    {
        if self.receipt.as_ref()?.id() != id {
            return None;
        }
        self.receipt.take()
    }
}

// Returns shards without receipts.
fn empty_shards<R: Run>(alloc: Global) -> Result<Vec<Shard<R>>, AllocError>
    ensures { IfOk result (λ shards. length shards.items ≡ 64) }
{
    let mut shards = Vec::new(alloc);
    for _ in 0..SHARDS {
        shards.push(Shard::new())?;
    }
    Ok(shards)
}

// Returns the index of an id's shard.
fn shard_of(id: Id) -> usize
    ensures { result < 64 }
{
    (id.place() % 64) as usize
}
