// Gates that watch the workers, and hold them.
use iq_outside::{Gate, Point};
use std::sync::atomic::{AtomicU64, Ordering};
use std::thread;

/// How often a gate looks for the other worker.
const TURNS: u64 = 100_000_000;

/// After how many looks a gate lets other threads run.
const LOOKS: u64 = 256;

/// A gate that counts the points that workers pass.
#[derive(Drop)]
pub struct Counting {
    pub quarantined: AtomicU64,
    pub answered: AtomicU64,
}

impl Gate for Counting {
    fn at(&self, _worker: u32, point: Point) {
        match point {
            Point::Quarantined => self.quarantined.fetch_add(1, Ordering::SeqCst),
            Point::Answered => self.answered.fetch_add(1, Ordering::SeqCst),
            Point::Inside { shard: _ } | Point::AtStore => 0,
        };
    }
}

/// A gate that holds worker 0 where it first comes to a point until worker 1 has had so many outcomes,
/// and worker 1 where it first has the lock of shard 1 until worker 0 has come to its point.
#[derive(Drop)]
pub struct Meeting {
    /// Where worker 0 is held.
    at: Point,
    /// For how many outcomes of worker 1.
    outcomes: u64,
    /// How often worker 0 came there.
    came: AtomicU64,
    /// How often worker 1 had the lock of shard 1.
    entered: AtomicU64,
    /// How often worker 1 had an outcome.
    answered: AtomicU64,
    /// How often a worker waited in vain.
    missed: AtomicU64,
}

impl Meeting {
    /// A gate that holds worker 0 at this point for so many outcomes.
    pub fn new(at: Point, outcomes: u64) -> Meeting {
        Meeting {
            at,
            outcomes,
            came: AtomicU64::new(0),
            entered: AtomicU64::new(0),
            answered: AtomicU64::new(0),
            missed: AtomicU64::new(0),
        }
    }

    /// How often a worker waited in vain.
    pub fn missed(&self) -> u64 {
        self.missed.load(Ordering::SeqCst)
    }

    /// Waits until a point was passed so often, or notes that it wasn't in so many turns.
    fn wait_for(&self, passed: &AtomicU64, times: u64) {
        for turn in 0..TURNS {
            if passed.load(Ordering::SeqCst) >= times {
                return;
            }
            if turn % LOOKS == 0 {
                thread::yield_now();
            }
        }
        self.missed.fetch_add(1, Ordering::SeqCst);
    }
}

impl Gate for Meeting {
    fn at(&self, worker: u32, point: Point) {
        if worker == 0 && point == self.at && self.came.fetch_add(1, Ordering::SeqCst) == 0 {
            self.wait_for(&self.answered, self.outcomes);
        }
        if worker == 1
            && point == (Point::Inside { shard: 1 })
            && self.entered.fetch_add(1, Ordering::SeqCst) == 0
        {
            self.wait_for(&self.came, 1);
        }
        if worker == 1 && point == Point::Answered {
            self.answered.fetch_add(1, Ordering::SeqCst);
        }
    }
}
