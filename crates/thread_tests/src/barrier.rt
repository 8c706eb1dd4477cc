//! A device that holds one call until it is released, for about ten seconds at most.
ghost use Rattle.std.specs.Prelude.{◌≡◌};

use bio::{DevError, Ms};
use blockdev::BlockDev;
use std::alloc::{AllocError, Global};
use std::sync::Arc;
use std::sync::atomic::{AtomicU64, Ordering};
use std::thread::{sleep, yield_now};
use std::time::{Clock, Duration};

// A held call checks every millisecond, at most this many times.
const LOOKS: u64 = 10_000;

// A thread that waits for a held call first checks this often without a sleep. So it goes on within
// some microseconds, while the threads that the held call woke are still looking.
const QUICK_LOOKS: u64 = 100_000;

// The states of a sign. No call is held yet.
const IDLE: u64 = 0;

// A call is held.
const HELD: u64 = 1;

// The held call may go on.
const LET_GO: u64 = 2;

// The barrier gave up holding the call.
const GAVE_UP: u64 = 3;

/// What a barrier and another thread share: whether a call is held, and whether the held call may
/// go on.
#[derive(Drop)]
pub struct Sign {
    state: Arc<AtomicU64>,
}

impl Sign {
    pub fn new(alloc: Global) -> Result<Sign, AllocError> {
        Ok(Sign {
            state: Arc::new(alloc, AtomicU64::new(IDLE))?,
        })
    }

    /// Returns another handle of the same sign.
    pub fn again(&self) -> Result<Sign, AllocError> {
        Ok(Sign {
            state: Arc::try_clone(&self.state)?,
        })
    }

    /// Waits until a call is held, ten seconds at most.
    pub fn wait(&self, clock: &impl Clock) {
        for _ in 0..QUICK_LOOKS {
            if self.is_busy() {
                return;
            }
            yield_now();
        }
        for _ in 0..LOOKS {
            if self.is_busy() {
                return;
            }
            sleep(clock, Duration::from_millis(1));
        }
    }

    // Returns whether a call is held, or was held.
    fn is_busy(&self) -> bool {
        self.state.load(Ordering::SeqCst) != IDLE
    }

    /// Releases the held call. Returns whether the barrier was still holding it.
    pub fn let_go(&self) -> bool {
        self.state
            .compare_exchange(HELD, LET_GO, Ordering::SeqCst, Ordering::SeqCst)
            .is_ok()
    }

    // Holds a call until it is released, or until `LOOKS` checks were made.
    fn hold(&self, clock: &impl Clock) {
        self.state.store(HELD, Ordering::SeqCst);
        for _ in 0..LOOKS {
            if self.state.load(Ordering::SeqCst) == LET_GO {
                return;
            }
            sleep(clock, Duration::from_millis(1));
        }
        let _ = self
            .state
            .compare_exchange(HELD, GAVE_UP, Ordering::SeqCst, Ordering::SeqCst);
    }
}

/// A device that passes all calls, but holds one of the writes to `sector` until this write is
/// released.
#[derive(Drop)]
pub struct Barrier<D: BlockDev + Drop, C: Clock + Drop> {
    lower: D,
    clock: C,
    sign: Sign,
    sector: u64,
    // This many writes to the sector pass before the one that is held. 2^64 - 1 means that no write
    // is held any more.
    passes: u64,
}

impl<D: BlockDev + Drop, C: Clock + Drop> Barrier<D, C> {
    /// Returns a barrier that holds no call.
    pub fn open(lower: D, clock: C, sign: Sign) -> Barrier<D, C>
        ensures { result.lower ≡ lower }
    {
        Barrier {
            lower,
            clock,
            sign,
            sector: 0,
            passes: u64::MAX,
        }
    }

    /// Returns a barrier that passes `passes` writes to `sector`, and holds the next one.
    pub fn holding(lower: D, clock: C, sign: Sign, sector: u64, passes: u64) -> Barrier<D, C>
        ensures { result.lower ≡ lower }
    {
        Barrier {
            lower,
            clock,
            sign,
            sector,
            passes,
        }
    }

    pub fn into_lower(self) -> D
        ensures { result ≡ self.lower }
    {
        let Barrier {
            lower,
            clock: _,
            sign: _,
            sector: _,
            passes: _,
        } = self;
        lower
    }

    // Holds a write that begins at sector `first`, if it is the one to hold.
    fn pass(&mut self, first: u64)
        ensures { self.new.lower ≡ self.old.lower }
    {
        if first != self.sector || self.passes == u64::MAX {
            return;
        }
        if self.passes == 0 {
            self.passes = u64::MAX;
            self.sign.hold(&self.clock);
            return;
        }
        self.passes -= 1;
    }
}

impl<D: BlockDev + Drop, C: Clock + Drop> BlockDev for Barrier<D, C> {
    ghost shown = { λ device. D.shown device.lower };

    ghost does = { λ _ _ _ _ _. Unit {0} };

    fn sectors(&self) -> u64 {
        self.lower.sectors()
    }

    fn read(&mut self, now: Ms, first: u64, buffer: &mut [u8]) -> Result<Ms, DevError> {
        self.lower.read(now, first, buffer)
    }

    fn write(&mut self, now: Ms, first: u64, bytes: &[u8], fua: bool) -> Result<Ms, DevError> {
        self.pass(first);
        self.lower.write(now, first, bytes, fua)
    }

    fn discard(&mut self, now: Ms, first: u64, count: u64) -> Result<Ms, DevError> {
        self.lower.discard(now, first, count)
    }

    fn flush(&mut self, now: Ms) -> Result<Ms, DevError> {
        self.lower.flush(now)
    }

    fn faults(&self) -> u64 {
        self.lower.faults()
    }

    fn lies(&self) -> u64 {
        self.lower.lies()
    }

    ghost lawful = { λ device. D.lawful device.lower };
}
