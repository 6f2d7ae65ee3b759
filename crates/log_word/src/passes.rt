//! The passes of the store, of the shards and of callers, and notes.
ghost use Rattle.std.specs.Prelude.{◌≡◌};
ghost use Rattle.log_word.specs.Events.{MayFollow};
ghost use Rattle.log_word.specs.Steps.{IsBorneOut, IsGranted, IsSound, IsBeginning};
ghost use Rattle.log_word.specs.Views.{with_event, with_failure, with_stop, with_step};
ghost use Rattle.log_word.specs.Passes.{IsTogether, IsSameOf, pass_of};

use crate::events::{Short, StoreEvent};
use crate::seen::View;
use crate::steps::TellsStop;
use crate::words::LogWord;
use atomic_table::Seat;
use std::marker::{Brand, Model};

/// The pass of the store, to lie under the store's lock: it has seen all events of the store.
/// Contracts see the word that it is of, and what it has seen.
#[derive(Drop)]
pub struct StorePass {
    pub(crate) seat: Seat<(), View>,
}

impl Model for StorePass {
    ghost use Rattle.std.specs.Prelude.{◌≡◌};
    ghost use Rattle.log_word.specs.declared.seen.Part.TheVariants.{Store};
    ghost use Rattle.log_word.specs.Passes.{PassView, IsSeat, pass_at};

    ghost Value = { PassView };

    ghost view = { λ p. pass_at p.seat };

    ghost invariant = { λ p. (p.seat.me.0.part ≡ Store) × IsSeat p.seat.me };
}

impl StorePass {
    /// What it has seen is sound.
    pub fn sound(&self)
        ensures { IsSound self.now.word.shards self.now.seen }
    {
        let _seat = &self.seat;
    }

    /// The store's event, made under its lock, is counted and seen.
    pub fn add(&mut self, word: &LogWord, event: &StoreEvent)
        requires word { self.old.word ≡ word.now }
        requires follows { MayFollow self.old.seen.events event.now }
        requires granted { IsGranted self.old.word.shards self.old.seen.steps event.now }
        ensures word { self.new.word ≡ self.old.word }
        ensures seen { self.new.seen ≡ with_event event.now self.old.seen }
    {
        word.count::<Brand>(&mut self.seat, event);
    }

    /// A call that the store's keeper failed is seen.
    pub fn fail(&mut self, word: &LogWord)
        requires word { self.old.word ≡ word.now }
        ensures word { self.new.word ≡ self.old.word }
        ensures seen { self.new.seen ≡ with_failure self.old.seen }
    {
        word.fail(&mut self.seat);
    }

    /// It is seen whether the store has stopped telling its rows by now. No code can look at that: it is
    /// named by `F`, which is picked where this is called, from what contracts see of the store that is
    /// lent for it.
    pub fn watch<F: TellsStop, S>(&mut self, word: &LogWord, store: &S)
        requires word { self.old.word ≡ word.now }
        ensures word { self.new.word ≡ self.old.word }
        ensures seen { self.new.seen ≡ with_stop F.stopped self.old.seen }
    {
        let _store = store;
        word.watch::<F>(&mut self.seat);
    }

    /// A note of what it has seen.
    pub fn note(&mut self, word: &LogWord) -> Note
        requires word { self.old.word ≡ word.now }
        ensures same { self.new ≡ self.old }
        ensures note { result ≡ self.old }
    {
        Note {
            seat: word.copy(&mut self.seat),
        }
    }

    /// It has seen what the note has, too. Of the store it had seen all before.
    pub fn join(&mut self, word: &LogWord, note: Note)
        requires word { self.old.word ≡ word.now }
        requires note { note.word ≡ word.now }
        ensures word { self.new.word ≡ self.old.word }
        ensures mine { IsBeginning self.old.seen self.new.seen }
        ensures theirs { IsBeginning note.seen self.new.seen }
        ensures together { IsTogether self.old.seen note.seen self.new.seen }
        ensures events { self.new.seen.events ≡ self.old.seen.events }
        ensures failures { self.new.seen.failures ≡ self.old.seen.failures }
        ensures stopped { self.new.seen.stopped ≡ self.old.seen.stopped }
    {
        let Note { seat } = note;
        word.gather(&mut self.seat, seat);
    }
}

/// The pass of a shard, to lie under the shard's lock: it has seen all steps of the shard. Contracts
/// see the word that it is of, the shard's number, and what it has seen.
#[derive(Drop)]
pub struct ShardPass {
    pub(crate) seat: Seat<(), View>,
}

impl Model for ShardPass {
    ghost use Rattle.std.specs.Prelude.{◌≡◌};
    ghost use Rattle.log_word.specs.Rule.{IsShard};
    ghost use Rattle.log_word.specs.Passes.{ShardPassView, IsSeat, shard_pass_at};

    ghost Value = { ShardPassView };

    ghost view = { λ p. shard_pass_at p.seat };

    ghost invariant = { λ p. IsShard p.seat.me.0.part × IsSeat p.seat.me };
}

impl ShardPass {
    /// What it has seen is sound.
    pub fn sound(&self)
        ensures { IsSound self.now.word.shards self.now.seen }
    {
        let _seat = &self.seat;
    }

    /// The shard's step, made under its lock, is seen.
    pub fn add(&mut self, word: &LogWord, step: &Short)
        requires word { self.old.word ≡ word.now }
        requires borne_out { IsBorneOut self.old.seen.events step.now }
        ensures word { self.new.word ≡ self.old.word }
        ensures shard { self.new.shard ≡ self.old.shard }
        ensures seen { self.new.seen ≡ with_step self.old.shard step.now self.old.seen }
    {
        word.step::<Brand>(&mut self.seat, step);
    }

    /// The shard's step, made under its lock, is seen, and here is a note of all that is seen then.
    /// It is `add` and then `note`, in one step on the word.
    pub fn tell(&mut self, word: &LogWord, step: &Short) -> Note
        requires word { self.old.word ≡ word.now }
        requires borne_out { IsBorneOut self.old.seen.events step.now }
        ensures word { self.new.word ≡ self.old.word }
        ensures shard { self.new.shard ≡ self.old.shard }
        ensures seen { self.new.seen ≡ with_step self.old.shard step.now self.old.seen }
        ensures note { result ≡ pass_of self.new }
    {
        Note {
            seat: word.tell::<Brand>(&mut self.seat, step),
        }
    }

    /// A note of what it has seen.
    pub fn note(&mut self, word: &LogWord) -> Note
        requires word { self.old.word ≡ word.now }
        ensures same { self.new ≡ self.old }
        ensures note { result ≡ pass_of self.old }
    {
        Note {
            seat: word.copy(&mut self.seat),
        }
    }

    /// It has seen what the note has, too. Of its shard it had seen all before.
    pub fn join(&mut self, word: &LogWord, note: Note)
        requires word { self.old.word ≡ word.now }
        requires note { note.word ≡ word.now }
        ensures word { self.new.word ≡ self.old.word }
        ensures shard { self.new.shard ≡ self.old.shard }
        ensures mine { IsBeginning self.old.seen self.new.seen }
        ensures theirs { IsBeginning note.seen self.new.seen }
        ensures together { IsTogether self.old.seen note.seen self.new.seen }
        ensures steps { IsSameOf self.old.shard self.old.seen self.new.seen }
    {
        let Note { seat } = note;
        word.gather(&mut self.seat, seat);
    }
}

/// The pass of a caller. Contracts see the word that it is of, and what it has seen.
#[derive(Drop)]
pub struct Pass {
    pub(crate) seat: Seat<(), View>,
}

impl Model for Pass {
    ghost use Rattle.std.specs.Prelude.{◌≡◌};
    ghost use Rattle.log_word.specs.declared.seen.Part.TheVariants.{Caller};
    ghost use Rattle.log_word.specs.Passes.{PassView, IsSeat, pass_at};

    ghost Value = { PassView };

    ghost view = { λ p. pass_at p.seat };

    ghost invariant = { λ p. (p.seat.me.0.part ≡ Caller) × IsSeat p.seat.me };
}

impl Pass {
    /// What it has seen is sound.
    pub fn sound(&self)
        ensures { IsSound self.now.word.shards self.now.seen }
    {
        let _seat = &self.seat;
    }

    /// A note of what it has seen.
    pub fn note(&mut self, word: &LogWord) -> Note
        requires word { self.old.word ≡ word.now }
        ensures same { self.new ≡ self.old }
        ensures note { result ≡ self.old }
    {
        Note {
            seat: word.copy(&mut self.seat),
        }
    }

    /// It has seen what the note has, too.
    pub fn join(&mut self, word: &LogWord, note: Note)
        requires word { self.old.word ≡ word.now }
        requires note { note.word ≡ word.now }
        ensures word { self.new.word ≡ self.old.word }
        ensures mine { IsBeginning self.old.seen self.new.seen }
        ensures theirs { IsBeginning note.seen self.new.seen }
        ensures together { IsTogether self.old.seen note.seen self.new.seen }
    {
        let Note { seat } = note;
        word.gather(&mut self.seat, seat);
    }
}

/// A note of what a pass had seen, for another pass to join.
#[derive(Drop)]
pub struct Note {
    pub(crate) seat: Seat<(), View>,
}

impl Model for Note {
    ghost use Rattle.std.specs.Prelude.{◌≡◌};
    ghost use Rattle.log_word.specs.declared.seen.Part.TheVariants.{Caller};
    ghost use Rattle.log_word.specs.Passes.{PassView, IsSeat, pass_at};

    ghost Value = { PassView };

    ghost view = { λ p. pass_at p.seat };

    ghost invariant = { λ p. (p.seat.me.0.part ≡ Caller) × IsSeat p.seat.me };
}

impl Note {
    /// What it tells is sound.
    pub fn sound(&self)
        ensures { IsSound self.now.word.shards self.now.seen }
    {
        let _seat = &self.seat;
    }

    /// A pass that has seen what the note tells.
    pub fn into_pass(self) -> Pass
        ensures { result ≡ self }
    {
        let Note { seat } = self;
        Pass { seat }
    }
}
