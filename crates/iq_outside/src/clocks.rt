ghost use Rattle.std.specs.Prelude.{◌≡◌, ◌<◌, ◌-◌, ◌/◌, ◌^◌, ℕ, length, min, Contains, IfOk, OnErr};
ghost use Rattle.std.specs.Duration.{as_nanos};

use std::io;
use std::marker::Model;
use std::sync::atomic::{AtomicU64, Ordering};
use std::time::{self, Duration};

/// Tells the time. Nothing is known of two answers: a clock may stand still, and it may go back.
///
/// Contracts see `told`, what is known of a time that the clock told. Whoever is to take the clock's time
/// and no other has that to show.
pub trait Clock: Sync {
    ghost told: { Self → ℕ → Type 0 } = { λ clock time. Unit {0} };

    /// The time now, in milliseconds. It can't fail, and takes no memory.
    fn now(&self) -> u64
        ensures told { told self.now result };
}

/// A clock in memory, which tells its times in turn and then the last one for ever. Contracts see
/// the times.
#[derive(Drop)]
pub struct ListClock {
    times: Vec<u64>,
    /// How many times were told, or more where all were.
    used: AtomicU64,
}

impl Model for ListClock {
    ghost use Rattle.std.specs.Prelude.{ℕ, List, ◌<◌, length};

    ghost Value = { List ℕ };

    ghost view = { λ clock. clock.times.items };

    ghost invariant = { λ clock. 0 < length clock.times.items };
}

impl ListClock {
    /// A clock that tells these times. It takes no memory.
    pub fn new(times: Vec<u64>) -> ListClock
        requires { 0 < length times.items }
        ensures { result ≡ times.items }
    {
        ListClock {
            times,
            used: AtomicU64::new(0),
        }
    }
}

impl Clock for ListClock {
    ghost told = { λ clock time. Contains clock time };

    /// The next of its times, and the last one where all were told.
    fn now(&self) -> u64 {
        let last = self.times.len() - 1;
        let used = self.used.load(Ordering::SeqCst);
        if used >= last as u64 {
            return self.times[last];
        }
        let place = self.used.fetch_add(1, Ordering::SeqCst);
        self.times[(place as usize).min(last)]
    }
}

/// A clock over that of a runtime, which never goes back where the system's doesn't. Where it can't
/// be read the time is 0.
#[derive(Drop)]
pub struct RuntimeClock<'a, R: time::Clock + Sync> {
    rt: &'a R,
}

impl<'a, R: time::Clock + Sync> RuntimeClock<'a, R> {
    /// The clock of this runtime.
    pub fn new(rt: &'a R) -> RuntimeClock<'a, R> {
        RuntimeClock { rt }
    }
}

impl<'a, R: time::Clock + Sync> Clock for RuntimeClock<'a, R> {
    /// The milliseconds since some start, which stop at 2^64 - 1.
    fn now(&self) -> u64 {
        millis_in(self.rt.monotonic())
    }
}

/// The whole milliseconds in a clock's answer, which stop at 2^64 - 1. An error has none.
fn millis_in(answer: io::Result<Duration>) -> u64
    ensures told { IfOk answer (λ since. result ≡ min (as_nanos since / 1_000_000) (2 ^ 64 - 1)) }
    ensures unread { OnErr answer (result ≡ 0) }
{
    match answer {
        Ok(since) => u64::try_from(since.as_millis()).unwrap_or(u64::MAX),
        Err(_) => 0,
    }
}
