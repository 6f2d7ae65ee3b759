ghost use Rattle.std.specs.Prelude.{◌≡◌, ◌+◌, ◌<◌, ℕ, [], ◌∷◌, Some, All, IfOk, IfSome, IfNone, OnOk, IsTrue, IsFalse, IsPermutation, not};
ghost use Rattle.std.specs.BinaryHeap.{heap_items, heap_len};
ghost use Rattle.lease_table.specs.Leases.{first};
ghost use Rattle.lease_table.specs.Standing.{stands_in};
ghost use Rattle.lease_table.specs.Index.{term_of, is_same, is_listed, found_before, ListsEach, IsSound, HasRoom, KeepsEach, KeepsOthers, AllAhead};

use crate::lookups::stands;
use crate::records::{LeaseMap, Quar};
use rows_model::{Memory, QKey};
use std::alloc::Global;
use std::cmp::Reverse;
use std::collections::BinaryHeap;

/// From when on a quarantine may be due, and which it is. Terms are in order of their deadlines.
#[derive(Clone, Copy, PartialEq, Eq, PartialOrd, Ord)]
pub struct Term {
    pub deadline: u64,
    pub key: QKey,
    pub token: u64,
}

/// Which quarantine a term is of whose time had come when it was looked at. They are in order of their
/// keys, and on each key in order of token.
#[derive(Clone, Copy, PartialEq, Eq, PartialOrd, Ord)]
pub struct Found {
    pub key: QKey,
    pub token: u64,
}

/// The quarantines by their deadlines. Each that stands is listed: by a term whose deadline is no later
/// than its own, or by what is found. What is listed may stand no longer, or have a later deadline by
/// now: that comes out when its turn comes. So a quarantine that ends, is raised or gets a later
/// deadline leaves the index as it is.
#[derive(Drop)]
pub struct Index {
    /// Terms whose time had not come when they were last looked at, the earliest in front.
    later: BinaryHeap<Reverse<Term>>,
    /// What had come, the first by key and token in front.
    found: BinaryHeap<Reverse<Found>>,
}

impl Term {
    /// The term of a quarantine on a key.
    pub fn new(key: QKey, quar: &Quar) -> Term
        ensures { result ≡ term_of key quar.now }
    {
        Term {
            deadline: quar.deadline,
            key,
            token: quar.token,
        }
    }
}

/// Whether two keys are different or two tokens are.
fn is_other(key: &QKey, token: u64, other_key: &QKey, other_token: u64) -> bool
    ensures { result ≡ not (is_same key.now token other_key.now other_token) }
{
    !(key == other_key && other_token == token)
}

impl Index {
    /// An index that lists nothing.
    pub fn new(alloc: Global) -> Index
        ensures { IsSound result }
    {
        Index {
            later: BinaryHeap::new(alloc),
            found: BinaryHeap::new(alloc),
        }
    }

    /// Another index that lists the same, in memory of its own. Where that is refused, `Memory` comes.
    pub fn copy(&self) -> Result<Index, Memory>
        requires { IsSound self.now }
        ensures sound { IfOk result IsSound }
        ensures later { IfOk result (λ copy. heap_items copy.later ≡ heap_items self.now.later) }
        ensures found { IfOk result (λ copy. heap_items copy.found ≡ heap_items self.now.found) }
    {
        let mut later = self.later.clone()?;
        let mut found = self.found.clone()?;
        later.reserve(self.found.len())?;
        found.reserve(self.later.len())?;
        Ok(Index { later, found })
    }

    /// Lists a quarantine that is to stand on a key. What stands by these leases is listed afterwards as
    /// before, also where there is no memory.
    pub fn list(&mut self, leases: &LeaseMap, key: QKey, quar: &Quar) -> Result<(), Memory>
        requires sound { IsSound self.old }
        requires lists { ListsEach (stands_in leases.now) self.old }
        ensures sound { IsSound self.new }
        ensures lists { ListsEach (stands_in leases.now) self.new }
        ensures listed { OnOk result
            (IsTrue (is_listed key quar.now.token quar.now.deadline self.new)) }
    {
        self.make_room(leases)?;
        self.put(Term::new(key, quar));
        Ok(())
    }

    /// Lists a quarantine that is listed with another deadline in the place of the one that it had. It
    /// takes no memory.
    pub fn renew(&mut self, key: &QKey, token: u64, was: u64, deadline: u64)
        requires sound { IsSound self.old }
        requires listed { IsTrue (is_listed key.now token was self.old) }
        ensures sound { IsSound self.new }
        ensures listed { IsTrue (is_listed key.now token deadline self.new) }
        ensures others { KeepsOthers key.now token self.old self.new }
    {
        if was <= deadline {
            return;
        }
        self.forget_terms(key, token);
        self.put(Term {
            deadline,
            key: *key,
            token,
        });
    }

    /// Moves each term whose time has come to what is found.
    pub fn settle(&mut self, now: u64)
        requires { IsSound self.old }
        ensures sound { IsSound self.new }
        ensures keeps { KeepsEach self.old self.new }
        ensures ahead { AllAhead now self.new }
    {
        while self.has_due(now) {
            self.find_next();
        }
    }

    /// What is found first, by key and then by token.
    pub fn found_first(&self) -> Option<Found>
        requires { IsSound self.now }
        ensures top { IfSome result (λ top. first (heap_items self.now.found)
            ≡ Some (record { 0 = top })) }
        ensures least { IfSome result (λ top.
            All (λ other. IsFalse (found_before other.0 top)) (heap_items self.now.found)) }
        ensures none { IfNone result (heap_items self.now.found ≡ []) }
    {
        match self.found.peek() {
            Some(top) => Some(top.0),
            None => None,
        }
    }

    /// A time before which the time of no term comes. It is 0 where something is found.
    pub fn next_due(&self) -> u64
        requires { IsSound self.now }
        ensures found { (now : ℕ) → now < result → heap_items self.now.found ≡ [] }
        ensures ahead { (now : ℕ) → now < result → AllAhead now self.now }
    {
        if self.found_first().is_some() {
            return 0;
        }
        match self.later.peek() {
            Some(term) => term.0.deadline,
            None => u64::MAX,
        }
    }

    /// Leaves out what is found first. There is room for one term more then.
    pub fn forget_first(&mut self)
        requires sound { IsSound self.old }
        requires any { 0 < heap_len self.old.found }
        ensures sound { IsSound self.new }
        ensures room { HasRoom self.new }
        ensures fewer { heap_len self.new.found < heap_len self.old.found }
        ensures later { heap_items self.new.later ≡ heap_items self.old.later }
        ensures others { IfSome (first (heap_items self.old.found))
            (λ top. KeepsOthers top.0.key top.0.token self.old self.new) }
    {
        let _ = self.found.pop();
    }

    /// Lists a term, for which there is room.
    pub fn put(&mut self, term: Term)
        requires sound { IsSound self.old }
        requires room { HasRoom self.old }
        ensures sound { IsSound self.new }
        ensures listed { IsTrue (is_listed term.key term.token term.deadline self.new) }
        ensures keeps { KeepsEach self.old self.new }
        ensures later { IsPermutation (record { 0 = term } ∷ heap_items self.old.later)
            (heap_items self.new.later) }
        ensures found { heap_len self.new.found ≡ heap_len self.old.found }
    {
        self.later.push(Reverse(term)).unwrap();
    }

    // Whether the time of any term has come.
    fn has_due(&self, now: u64) -> bool
        requires { IsSound self.now }
        ensures some { IsTrue result → 0 < heap_len self.now.later }
        ensures none { IsFalse result → AllAhead now self.now }
    {
        match self.later.peek() {
            Some(term) => term.0.deadline <= now,
            None => false,
        }
    }

    // Moves the term in front to what is found.
    fn find_next(&mut self)
        requires sound { IsSound self.old }
        requires any { 0 < heap_len self.old.later }
        ensures sound { IsSound self.new }
        ensures keeps { KeepsEach self.old self.new }
        ensures fewer { heap_len self.new.later < heap_len self.old.later }
    {
        let first = self.later.pop().unwrap();
        let found = Found {
            key: first.0.key,
            token: first.0.token,
        };
        self.found.push(Reverse(found)).unwrap();
    }

    // Makes room for one term more. Where there is none, it first leaves out what no longer stands, and
    // then sees to room for as many again as are left.
    fn make_room(&mut self, leases: &LeaseMap) -> Result<(), Memory>
        requires sound { IsSound self.old }
        requires lists { ListsEach (stands_in leases.now) self.old }
        ensures sound { IsSound self.new }
        ensures lists { ListsEach (stands_in leases.now) self.new }
        ensures room { OnOk result (HasRoom self.new) }
    {
        if self.has_room() {
            return Ok(());
        }
        self.forget_ended(leases);
        self.grow()
    }

    // Whether there is room for one term more.
    fn has_room(&self) -> bool
        requires { IsSound self.now }
        ensures { IsTrue result → HasRoom self.now }
    {
        let listed = self.later.len() + self.found.len();
        listed < self.later.capacity() && listed < self.found.capacity()
    }

    // Sees to room for one more than as many again as there are.
    fn grow(&mut self) -> Result<(), Memory>
        requires { IsSound self.old }
        ensures sound { IsSound self.new }
        ensures keeps { KeepsEach self.old self.new }
        ensures room { OnOk result (HasRoom self.new) }
    {
        let later = self.later.len();
        let found = self.found.len();
        self.later.reserve(later + found + found + 1)?;
        self.found.reserve(later + found + later + 1)?;
        Ok(())
    }

    // Leaves out what no longer stands by these leases.
    fn forget_ended(&mut self, leases: &LeaseMap)
        requires sound { IsSound self.old }
        requires lists { ListsEach (stands_in leases.now) self.old }
        ensures sound { IsSound self.new }
        ensures lists { ListsEach (stands_in leases.now) self.new }
    {
        self.later
            .retain(|term| stands(leases, &term.0.key, term.0.token));
        self.found
            .retain(|found| stands(leases, &found.0.key, found.0.token));
    }

    // Leaves out what has this key and this token. Where any had, there is room for one term more then.
    fn forget_terms(&mut self, key: &QKey, token: u64)
        requires { IsSound self.old }
        ensures sound { IsSound self.new }
        ensures others { KeepsOthers key.now token self.old self.new }
        ensures room { (was : ℕ) → IsTrue (is_listed key.now token was self.old)
            → HasRoom self.new }
    {
        self.later
            .retain(|term| is_other(key, token, &term.0.key, term.0.token));
        self.found
            .retain(|found| is_other(key, token, &found.0.key, found.0.token));
    }
}
