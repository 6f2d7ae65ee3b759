//! The word, and each kind of step on it.
ghost use Rattle.std.specs.Prelude.{◌≡◌, []};
ghost use Rattle.log_word.specs.declared.seen.Part.TheVariants.{Store};
ghost use Rattle.log_word.specs.Events.{MayFollow};
ghost use Rattle.log_word.specs.Steps.{IsBorneOut, IsGranted};
ghost use Rattle.log_word.specs.Rule.{IsShard};
ghost use Rattle.log_word.specs.Views.{view_with_event, view_with_failure, view_with_stop, view_with_step, noted, with_shard, shard_view, view_joined, settled};
ghost use Rattle.log_word.specs.Rule.{HasBegun};
ghost use Rattle.log_word.specs.Passes.{IsAt, Becomes};

use crate::events::{Short, StoreEvent};
use crate::seen::View;
use crate::steps::{
    GetsEvent, GetsFailure, GetsStep, GetsStop, JoinsSeats, Law, MakesShard, Notes, Settles,
    TellsEvent, TellsStep, TellsStepOn, TellsStop,
};
use atomic_table::{Seat, Table};
use std::alloc::Global;
use std::marker::Model;

/// The word, which counts the store's events. Contracts see which one it is, and of how many shards.
#[derive(Drop)]
pub struct LogWord {
    pub(crate) table: Table<(), View, u32, Law, Global>,
}

impl Model for LogWord {
    ghost use Rattle.std.specs.Prelude.{◌≡◌};
    ghost use Rattle.log_word.specs.Passes.{WordView};

    ghost Value = { WordView };

    ghost view = { λ w. record { id = w.table.shared.table_id; shards = w.table.shared.key } };

    ghost invariant = { λ w. w.table.shared.table_id.words ≡ 1 };
}

impl LogWord {
    /// The word is counted up, and the store's seat gets the event: the one fetch-and-add.
    pub(crate) fn count<E: TellsEvent>(&self, seat: &mut Seat<(), View>, event: &StoreEvent)
        requires event { E.event ≡ event.now }
        requires word { IsAt self.now seat.old }
        requires store { seat.old.me.0.part ≡ Store }
        requires follows { MayFollow seat.old.me.0.seen.events event.now }
        requires granted { IsGranted seat.old.me.0.shards seat.old.me.0.seen.steps event.now }
        ensures { Becomes (view_with_event event.now seat.old.me.0) seat.old seat.new }
    {
        self.table.shared.fetch_add::<GetsEvent<E>>(seat, 0, 1);
    }

    /// The store's seat counts a call that the keeper failed.
    pub(crate) fn fail(&self, seat: &mut Seat<(), View>)
        requires word { IsAt self.now seat.old }
        requires store { seat.old.me.0.part ≡ Store }
        ensures { Becomes (view_with_failure seat.old.me.0) seat.old seat.new }
    {
        self.table.shared.load::<GetsFailure>(seat, 0);
    }

    /// The store's seat sees whether the store has stopped telling its rows.
    pub(crate) fn watch<F: TellsStop>(&self, seat: &mut Seat<(), View>)
        requires word { IsAt self.now seat.old }
        requires store { seat.old.me.0.part ≡ Store }
        ensures { Becomes (view_with_stop F.stopped seat.old.me.0) seat.old seat.new }
    {
        self.table.shared.load::<GetsStop<F>>(seat, 0);
    }

    /// A shard's seat gets the step.
    pub(crate) fn step<T: TellsStep>(&self, seat: &mut Seat<(), View>, step: &Short)
        requires step { T.step ≡ step.now }
        requires word { IsAt self.now seat.old }
        requires shard { IsShard seat.old.me.0.part }
        requires borne_out { IsBorneOut seat.old.me.0.seen.events step.now }
        ensures { Becomes (view_with_step step.now seat.old.me.0) seat.old seat.new }
    {
        self.table.shared.load::<GetsStep<T>>(seat, 0);
    }

    /// A shard's seat gets the step, and a caller's has seen the same: one load in place of two.
    pub(crate) fn tell<T: TellsStep>(
        &self,
        seat: &mut Seat<(), View>,
        step: &Short,
    ) -> Seat<(), View>
        requires step { T.step ≡ step.now }
        requires word { IsAt self.now seat.old }
        requires shard { IsShard seat.old.me.0.part }
        requires borne_out { IsBorneOut seat.old.me.0.seen.events step.now }
        ensures seat { Becomes (view_with_step step.now seat.old.me.0) seat.old seat.new }
        ensures id { result.table_id ≡ seat.old.table_id }
        ensures note { result.me ≡ (noted (view_with_step step.now seat.old.me.0), []) }
    {
        self.table.shared.split_seat::<TellsStepOn<T>>(seat)
    }

    /// A caller's seat that has seen the same.
    pub(crate) fn copy(&self, seat: &mut Seat<(), View>) -> Seat<(), View>
        requires word { IsAt self.now seat.old }
        ensures same { (seat.new.table_id ≡ seat.old.table_id) × (seat.new.me ≡ seat.old.me) }
        ensures id { result.table_id ≡ seat.old.table_id }
        ensures copy { result.me ≡ (noted seat.old.me.0, []) }
    {
        self.table.shared.split_seat::<Notes>(seat)
    }

    /// The seat of the next shard.
    pub(crate) fn shard(&self, seat: &mut Seat<(), View>) -> Seat<(), View>
        requires word { IsAt self.now seat.old }
        requires store { seat.old.me.0.part ≡ Store }
        ensures store { Becomes (with_shard seat.old.me.0) seat.old seat.new }
        ensures id { result.table_id ≡ seat.old.table_id }
        ensures shard { result.me ≡ (shard_view seat.old.me.0, []) }
    {
        self.table.shared.split_seat::<MakesShard>(seat)
    }

    /// A seat takes over what another has seen, and the load after it tells that both have seen a
    /// beginning of it.
    pub(crate) fn gather(&self, seat: &mut Seat<(), View>, other: Seat<(), View>)
        requires word { IsAt self.now seat.old }
        requires other { (other.table_id ≡ self.now.id) × (other.me.1 ≡ []) }
        ensures seat { Becomes (settled (view_joined seat.old.me.0 other.me.0)) seat.old seat.new }
        ensures begun { HasBegun (view_joined seat.old.me.0 other.me.0) }
    {
        self.table.shared.join_seat::<JoinsSeats>(seat, other);
        self.table.shared.load::<Settles>(seat, 0);
    }
}
