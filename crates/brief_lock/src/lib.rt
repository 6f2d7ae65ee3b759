//! How a lock is taken that is held for a short time: who waits looks again for a while before it sleeps.
#![tactic(auto)]

use std::hint::spin_loop;
use std::sync::{Mutex, MutexGuard, Wait};

/// How many hints to the processor a thread gives between two such looks.
const PAUSE: u32 = 4;

/// Takes a lock. Where another thread has it, this one looks again so many times before it sleeps: what is done
/// under such a lock takes less time than to send a thread to sleep and to wake it. It may wait.
pub fn locked_soon<'a, T, R: Wait>(rt: &R, lock: &'a Mutex<T>, looks: u32) -> MutexGuard<'a, T> {
    for _ in 0..looks {
        if let Some(guard) = lock.try_lock() {
            return guard;
        }
        for _ in 0..PAUSE {
            spin_loop();
        }
    }
    lock.lock(rt)
}
