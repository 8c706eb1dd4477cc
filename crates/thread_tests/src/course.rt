//! How far the threads of a recorder have come: how many calls were begun, and which threads have
//! ended. A test whose threads don't end aborts by this, instead of waiting for ever.
use std::process::Abort;
use std::sync::atomic::{AtomicBool, AtomicU64, Ordering};
use std::thread::sleep;
use std::time::{Clock, Duration};

// A seat looks at most this often how far other threads have come, and sleeps for a millisecond
// after each look. A barrier holds a call for longer than that.
const SEAT_LOOKS: u64 = 5_000;

// The watching thread looks at most this often, so it waits for longer than a barrier holds a call.
const WATCH_LOOKS: u64 = 120_000;

/// What the threads of a recorder noted of their calls and ends.
#[derive(Drop)]
pub struct Course {
    begun: AtomicU64,
    writer: AtomicBool,
    others: AtomicBool,
}

impl Course {
    /// Returns that no call was begun, and that no thread has ended.
    pub fn new() -> Course {
        Course {
            begun: AtomicU64::new(0),
            writer: AtomicBool::new(false),
            others: AtomicBool::new(false),
        }
    }

    /// Notes that a seat begins a call.
    pub fn begin_call(&self) {
        self.begun.fetch_add(1, Ordering::SeqCst);
    }

    /// Waits until this many calls were begun, for about five seconds at most.
    pub fn await_calls(&self, clock: &impl Clock, count: u64) {
        for _ in 0..SEAT_LOOKS {
            if self.begun.load(Ordering::SeqCst) >= count {
                return;
            }
            sleep(clock, Duration::from_millis(1));
        }
    }

    /// Notes that the writer's thread has ended.
    pub fn end_writer(&self) {
        self.writer.store(true, Ordering::SeqCst);
    }

    /// Notes that the threads of the seats and of the readers have ended.
    pub fn end_others(&self) {
        self.others.store(true, Ordering::SeqCst);
    }

    /// Waits until the writer's thread has ended, for about five seconds at most. Returns whether it
    /// has.
    pub fn await_writer(&self, clock: &impl Clock) -> bool {
        is_set(clock, &self.writer, SEAT_LOOKS)
    }

    /// Waits until all threads have ended. Aborts the test if they don't within two minutes.
    pub fn watch(&self, rt: &(impl Clock + Abort)) {
        assert!(rt; is_set(rt, &self.others, WATCH_LOOKS));
        assert!(rt; is_set(rt, &self.writer, WATCH_LOOKS));
    }
}

// Returns whether the flag is set, or becomes so within this many looks.
fn is_set(clock: &impl Clock, flag: &AtomicBool, looks: u64) -> bool {
    for _ in 0..looks {
        if flag.load(Ordering::SeqCst) {
            return true;
        }
        sleep(clock, Duration::from_millis(1));
    }
    false
}
