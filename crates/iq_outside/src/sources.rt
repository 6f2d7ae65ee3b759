ghost use Rattle.std.specs.Prelude.{◌≡◌, ℕ, ◌<◌, ◌≤◌, List, Option, None, length, take, IfOk, OnOk, OnErr};
ghost use Rattle.iq_outside.specs.Outside.{Rose, Takes, ZeroAtEnd, Gains, WriteSide, no_writing};

use crate::failures::Failed;

/// Where bytes come from.
///
/// Contracts see three things of a source: `left`, the bytes that it will give from here on, or
/// `None` where it doesn't tell them, `given`, those that it has given so far, or `None`, and
/// `faults`, how often it failed. No call changes whether the bytes are told. The count rises at each
/// read that fails, until the end of its type, and at no other.
///
/// What is written too tells its writing as `write_side`, which no read changes (`Line`).
pub trait Source {
    ghost left: { Self → Option (List ℕ) };

    ghost given: { Self → Option (List ℕ) } = { λ _. None };

    ghost faults: { Self → ℕ };

    ghost write_side: { Self → WriteSide } = { λ _. no_writing };

    /// Puts the next bytes at the front of `room` and answers how many: 0 is the end of the bytes.
    /// Nothing is said of `room` past them. After `Failed` the bytes left and given are as before.
    fn read(&mut self, room: &mut [u8]) -> Result<usize, Failed>
        requires { 0 < length room.old }
        ensures within { IfOk result (λ n. n ≤ length room.new) }
        ensures gives { IfOk result (λ n. Takes (left self.old) (left self.new) (take n room.new)) }
        ensures adds { IfOk result (λ n. Gains (given self.old) (given self.new)
            (take n room.new)) }
        ensures ends { IfOk result (ZeroAtEnd (left self.old)) }
        ensures keeps { OnErr result (left self.new ≡ left self.old) }
        ensures keeps_given { OnErr result (given self.new ≡ given self.old) }
        ensures keeps_writing { write_side self.new ≡ write_side self.old }
        ensures failed_rose { OnErr result (Rose (faults self.old) (faults self.new)) }
        ensures no_fault { OnOk result (faults self.new ≡ faults self.old) }
        ensures never_falls { faults self.old ≤ faults self.new };
}
