ghost use Rattle.std.specs.Prelude.{◌≡◌, ◌≢◌, ◌≤◌, ◌⊎◌, ◌↔◌, ◌∷◌, ℕ, List, Option, None, Some, Err, Contains, IfOk, IfSome, IfNone, IsErr, IsSome, IsFalse, IsTrue, OnOk, OnErr, option_map};
ghost use Rattle.iq_outside.specs.declared.failures.ReadStop.TheVariants as stops;
ghost use Rattle.iq_outside.specs.Outside.{Rose, count_up};
ghost use Rattle.cache_file.specs.Files.{IsAbsent, IsTold, SameTexts, SameElsewhere, mem_found, mem_text_at};

use crate::files::CacheFile;
use iq_outside::{Failed, ReadStop};
use std::alloc::{AllocError, Global};
use std::marker::Model;

/// One file in memory. It fails at the calls that it was told to fail at, and where another file is
/// written. Contracts see its path, its text, those calls, and how many calls and faults there were.
#[derive(Drop)]
pub struct MemFile {
    path: Vec<u8>,
    text: Option<Vec<u8>>,
    fails: Vec<u64>,
    calls: u64,
    faults: u64,
}

impl Model for MemFile {
    ghost use Rattle.std.specs.Option.{option_map};
    ghost use Rattle.cache_file.specs.Files.{MemView};

    ghost Value = { MemView };

    ghost view = { λ f. record {
      path = f.path.items;
      text = option_map (λ text. text.items) f.text;
      fails = f.fails.items;
      calls = f.calls;
      faults = f.faults;
    } };
}

impl MemFile {
    /// The file at this path, which has this text, or isn't there. It fails at the calls with these
    /// numbers, counted from 1 over reads and writes. It takes no memory.
    pub fn new(path: Vec<u8>, text: Option<Vec<u8>>, fails: Vec<u64>) -> MemFile
        ensures path { result.path ≡ path.items }
        ensures text { result.text ≡ option_map (λ text. text.items) text }
        ensures fails { result.fails ≡ fails.items }
        ensures calls { result.calls ≡ 0 }
        ensures faults { result.faults ≡ 0 }
    {
        MemFile {
            path,
            text,
            fails,
            calls: 0,
            faults: 0,
        }
    }

    /// What the file has, and `None` where there is none.
    pub fn text(&self) -> Option<&[u8]>
        ensures { option_map (λ text. text.now) result ≡ self.now.text }
    {
        Some(self.text.as_ref()?.as_slice())
    }

    /// How often it failed.
    pub fn faults(&self) -> u64
        ensures { result ≡ self.now.faults }
    {
        self.faults
    }

    // Counts a call, and answers whether it is one at which the file fails.
    fn fails_now(&mut self) -> bool
        ensures yes { IsTrue result → Contains self.old.fails (count_up self.old.calls) }
        ensures no { IsFalse result → Contains self.old.fails (count_up self.old.calls) → ⊥ }
        ensures same { self.new ≡ record self.old { calls = count_up self.old.calls } }
    {
        self.calls = self.calls.saturating_add(1);
        is_one_of(self.calls, self.fails.as_slice())
    }

    // Counts a fault.
    fn fail(&mut self)
        ensures counted { self.new ≡ record self.old { faults = count_up self.old.faults } }
        ensures rose { Rose self.old.faults self.new.faults }
        ensures never_falls { self.old.faults ≤ self.new.faults }
    {
        self.faults = self.faults.saturating_add(1);
    }

    // What the file at a path has, copied.
    fn copy_of(&self, alloc: Global, path: &[u8]) -> Result<Option<Vec<u8>>, AllocError>
        ensures { IfOk result
            (λ found. option_map (λ text. text.items) found ≡ mem_found self.now path.now) }
    {
        if self.path.as_slice() != path {
            return Ok(None);
        }
        match &self.text {
            Some(text) => Ok(Some(Vec::from_slice(alloc, text.as_slice())?)),
            None => Ok(None),
        }
    }

    // Puts a copy of this text in the place of the old one, if this is the file's path.
    fn put(&mut self, alloc: Global, path: &[u8], text: &[u8]) -> bool
        ensures here { IsTrue result → self.old.path ≡ path.now }
        ensures put { IsTrue result → self.new ≡ record self.old { text = Some text.now } }
        ensures kept { IsFalse result → self.new ≡ self.old }
    {
        if self.path.as_slice() != path {
            return false;
        }
        match Vec::from_slice(alloc, text) {
            Ok(copy) => {
                self.text = Some(copy);
                true
            }
            Err(_) => false,
        }
    }
}

impl CacheFile for MemFile {
    ghost text_at = { mem_text_at };

    ghost faults = { λ file. file.faults };

    /// Fails exactly at the calls whose numbers it was given. `Memory` comes where the copy of the text
    /// has no room.
    fn read(&mut self, alloc: Global, path: &[u8]) -> Result<Option<Vec<u8>>, ReadStop>
        ensures text { IfOk result (λ found. IfSome found
            (λ text. IsTold (mem_text_at self.old path.now) text.items)) }
        ensures none { IfOk result (λ found. IfNone found
            (IsAbsent (mem_text_at self.old path.now))) }
        ensures keeps { SameTexts (mem_text_at self.old) (mem_text_at self.new) }
        ensures failed_rose { result ≡ Err stops.Failed → Rose self.old.faults self.new.faults }
        ensures no_fault { (result ≢ Err stops.Failed) → self.new.faults ≡ self.old.faults }
        ensures never_falls { self.old.faults ≤ self.new.faults }

        ensures found { IfOk result (λ found. option_map (λ text. text.items) found
            ≡ mem_found self.old path.now) }
        ensures fails { (result ≡ Err stops.Failed)
            ↔ Contains self.old.fails (count_up self.old.calls) }
        ensures calls { self.new.calls ≡ count_up self.old.calls }
        ensures same { (self.new.path ≡ self.old.path) × (self.new.text ≡ self.old.text)
            × (self.new.fails ≡ self.old.fails) }
    {
        if self.fails_now() {
            self.fail();
            return Err(ReadStop::Failed);
        }
        Ok(self.copy_of(alloc, path)?)
    }

    /// Fails at the calls whose numbers it was given, and where the path isn't its own; else only where
    /// the copy of the text has no room.
    fn write(&mut self, alloc: Global, path: &[u8], text: &[u8]) -> Result<(), Failed>
        ensures saved { OnOk result (IsTold (mem_text_at self.new path.now) text.now) }
        ensures tells { OnOk result (IsSome (mem_text_at self.old path.now)
            → IsSome (mem_text_at self.new path.now)) }
        ensures others { OnOk result
            (SameElsewhere path.now (mem_text_at self.old) (mem_text_at self.new)) }
        ensures keeps { OnErr result (SameTexts (mem_text_at self.old) (mem_text_at self.new)) }
        ensures failed_rose { OnErr result (Rose self.old.faults self.new.faults) }
        ensures no_fault { OnOk result (self.new.faults ≡ self.old.faults) }
        ensures never_falls { self.old.faults ≤ self.new.faults }

        ensures text { OnOk result (self.new.text ≡ Some text.now) }
        ensures fails { Contains self.old.fails (count_up self.old.calls) → IsErr result }
        ensures elsewhere { (self.old.path ≢ path.now) → IsErr result }
        ensures calls { self.new.calls ≡ count_up self.old.calls }
        ensures same { (self.new.path ≡ self.old.path) × (self.new.fails ≡ self.old.fails) }
    {
        if !self.fails_now() && self.put(alloc, path, text) {
            return Ok(());
        }
        self.fail();
        Err(Failed)
    }
}

// Whether the number is one of these.
fn is_one_of(number: u64, numbers: &[u64]) -> bool
    ensures yes { IsTrue result → Contains numbers.now number }
    ensures no { IsFalse result → Contains numbers.now number → ⊥ }
{
    numbers.contains(&number)
}
