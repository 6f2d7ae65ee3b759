ghost use Rattle.std.specs.Prelude.{◌≡◌, ◌≢◌, ℕ, ◌≤◌, List, Option, None, Err, IfOk, IfSome, IfNone, IsSome, OnOk, OnErr};
ghost use Rattle.iq_outside.specs.declared.failures.ReadStop.{ReadStop};
ghost use Rattle.iq_outside.specs.declared.failures.ReadStop.TheVariants as stops;
ghost use Rattle.iq_outside.specs.Outside.{Rose};
ghost use Rattle.cache_file.specs.Files.{IsAbsent, IsTold, SameTexts, SameElsewhere};

use iq_outside::{Failed, ReadStop};
use std::alloc::Global;

/// A place for whole texts, each under a path, that outlives the program.
///
/// Contracts see two things of it. `text_at` is what is told of the file at a path: nothing, or that there
/// is none, or its text. `faults` is how often it failed. The count rises at each call that answers
/// `Failed`, until the end of its type, and at no other.
pub trait CacheFile {
    ghost text_at: { Self → List ℕ → Option (Option (List ℕ)) };

    ghost faults: { Self → ℕ };

    /// All that the file at this path has, or `None` where there is no such file. It changes no file.
    fn read(&mut self, alloc: Global, path: &[u8]) -> Result<Option<Vec<u8>>, ReadStop>
        ensures text { IfOk result (λ found. IfSome found
            (λ text. IsTold (text_at self.old path.now) text.items)) }
        ensures none { IfOk result (λ found. IfNone found
            (IsAbsent (text_at self.old path.now))) }
        ensures keeps { SameTexts (text_at self.old) (text_at self.new) }
        ensures failed_rose { result ≡ Err stops.Failed → Rose (faults self.old) (faults self.new) }
        ensures no_fault { (result ≢ Err stops.Failed) → faults self.new ≡ faults self.old }
        ensures never_falls { faults self.old ≤ faults self.new };

    /// Puts this text in the place of what the file at this path has: whole, or not at all. Where there
    /// was no file there is one then. After `Failed` each file has what it had.
    fn write(&mut self, alloc: Global, path: &[u8], text: &[u8]) -> Result<(), Failed>
        ensures saved { OnOk result (IsTold (text_at self.new path.now) text.now) }
        ensures tells { OnOk result
            (IsSome (text_at self.old path.now) → IsSome (text_at self.new path.now)) }
        ensures others { OnOk result
            (SameElsewhere path.now (text_at self.old) (text_at self.new)) }
        ensures keeps { OnErr result (SameTexts (text_at self.old) (text_at self.new)) }
        ensures failed_rose { OnErr result (Rose (faults self.old) (faults self.new)) }
        ensures no_fault { OnOk result (faults self.new ≡ faults self.old) }
        ensures never_falls { faults self.old ≤ faults self.new };
}
