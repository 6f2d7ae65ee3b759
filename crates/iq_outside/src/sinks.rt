ghost use Rattle.std.specs.Prelude.{◌≡◌, ℕ, ◌<◌, ◌≤◌, List, Option, length, take, IfOk, OnOk, OnErr};
ghost use Rattle.iq_outside.specs.Outside.{Rose, Gains, ReadSide, no_reading};

use crate::failures::Failed;

/// Where bytes go.
///
/// Contracts see two things of a sink: `taken`, the bytes that it has taken so far, or `None` where it
/// doesn't tell them, and `faults`, how often it failed. No call changes whether the bytes are told.
/// The count rises at each write that fails, until the end of its type, and at no other.
///
/// What is read too tells its reading as `read_side`, which no write changes (`Line`).
pub trait Sink {
    ghost taken: { Self → Option (List ℕ) };

    ghost faults: { Self → ℕ };

    ghost read_side: { Self → ReadSide } = { λ _. no_reading };

    /// Takes bytes from the front of `piece`, at least one, and answers how many. After `Failed` the
    /// bytes taken are as before.
    fn write(&mut self, piece: &[u8]) -> Result<usize, Failed>
        requires { 0 < length piece.now }
        ensures progress { IfOk result (λ n. 1 ≤ n) }
        ensures within { IfOk result (λ n. n ≤ length piece.now) }
        ensures takes { IfOk result (λ n. Gains (taken self.old) (taken self.new)
            (take n piece.now)) }
        ensures keeps { OnErr result (taken self.new ≡ taken self.old) }
        ensures keeps_reading { read_side self.new ≡ read_side self.old }
        ensures failed_rose { OnErr result (Rose (faults self.old) (faults self.new)) }
        ensures no_fault { OnOk result (faults self.new ≡ faults self.old) }
        ensures never_falls { faults self.old ≤ faults self.new };
}
