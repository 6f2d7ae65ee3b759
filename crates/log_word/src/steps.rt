//! The kinds of step on the word, as the table of the word is told of them.
use crate::events::{Short, StoreEvent};
use crate::seen::View;
use atomic_table::{Join, Play, Split, TableRule};
use std::marker::{Brand, PhantomData};

/// The rule of the word. Its key is the number of shards.
pub struct Law;

impl TableRule<(), View, u32> for Law {
    ghost use Rattle.log_word.specs.Rule.{Kept};
    ghost use Rattle.log_word.specs.Views.{store_view};

    ghost holds = { λ shards s. Kept shards s.words s.views };

    ghost first = { store_view };
}

/// Names an event of the store.
pub trait TellsEvent {
    ghost use Rattle.log_word.specs.declared.events.StoreEvent.{StoreEvent};

    ghost event: { StoreEvent };
}

impl TellsEvent for Brand {
    ghost use Rattle.log_word.specs.Views.{no_event};

    ghost event = { no_event };
}

/// Names a step of a shard.
pub trait TellsStep {
    ghost use Rattle.log_word.specs.declared.events.Short.{Short};

    ghost step: { Short };
}

impl TellsStep for Brand {
    ghost use Rattle.log_word.specs.Views.{no_step};

    ghost step = { no_step };
}

/// Names whether the store has stopped telling its rows.
pub trait TellsStop {
    ghost use Rattle.std.specs.Prelude.{Bool};

    ghost stopped: { Bool };
}

impl TellsStop for Brand {
    ghost use Rattle.std.specs.Prelude.{false};

    ghost stopped = { false };
}

/// The store's seat gets an event.
pub struct GetsEvent<E: TellsEvent> {
    of: PhantomData<E>,
}

impl<E: TellsEvent> Play<(), View> for GetsEvent<E> {
    ghost use Rattle.std.specs.Prelude.{◌≡◌};
    ghost use Rattle.log_word.specs.Views.{view_with_event};

    ghost then = { λ step me found after. (after.0 ≡ view_with_event E.event me.0) × (after.1 ≡ me.1) };
}

/// The store's seat counts a call that the keeper failed.
pub struct GetsFailure;

impl Play<(), View> for GetsFailure {
    ghost use Rattle.std.specs.Prelude.{◌≡◌};
    ghost use Rattle.log_word.specs.Views.{view_with_failure};

    ghost then = { λ step me found after. (after.0 ≡ view_with_failure me.0) × (after.1 ≡ me.1) };
}

/// The store's seat sees whether the store has stopped telling its rows.
pub struct GetsStop<F: TellsStop> {
    of: PhantomData<F>,
}

impl<F: TellsStop> Play<(), View> for GetsStop<F> {
    ghost use Rattle.std.specs.Prelude.{◌≡◌};
    ghost use Rattle.log_word.specs.Views.{view_with_stop};

    ghost then = { λ step me found after. (after.0 ≡ view_with_stop F.stopped me.0) × (after.1 ≡ me.1) };
}

/// A shard's seat gets a step of its shard.
pub struct GetsStep<T: TellsStep> {
    of: PhantomData<T>,
}

impl<T: TellsStep> Play<(), View> for GetsStep<T> {
    ghost use Rattle.std.specs.Prelude.{◌≡◌};
    ghost use Rattle.log_word.specs.Views.{view_with_step};

    ghost then = { λ step me found after. (after.0 ≡ view_with_step T.step me.0) × (after.1 ≡ me.1) };
}

/// After a join: what both had seen before is a beginning of what is seen now.
pub struct Settles;

impl Play<(), View> for Settles {
    ghost use Rattle.std.specs.Prelude.{◌≡◌};
    ghost use Rattle.log_word.specs.Views.{settled};
    ghost use Rattle.log_word.specs.Rule.{HasBegun};

    ghost then = { λ step me found after. (after.0 ≡ settled me.0) × (after.1 ≡ me.1) × HasBegun me.0 };
}

/// A note has seen what the seat that it is made of has.
pub struct Notes;

impl Split<View> for Notes {
    ghost use Rattle.log_word.specs.Views.{noted};

    ghost left = { λ view. view };

    ghost right = { noted };
}

/// A shard's seat gets a step of its shard, and a note has seen that too.
pub struct TellsStepOn<T: TellsStep> {
    of: PhantomData<T>,
}

impl<T: TellsStep> Split<View> for TellsStepOn<T> {
    ghost use Rattle.log_word.specs.Views.{view_with_step, noted};

    ghost left = { view_with_step T.step };

    ghost right = { λ view. noted (view_with_step T.step view) };
}

/// The store's seat makes the seat of the next shard.
pub struct MakesShard;

impl Split<View> for MakesShard {
    ghost use Rattle.log_word.specs.Views.{with_shard, shard_view};

    ghost left = { with_shard };

    ghost right = { shard_view };
}

/// What both have seen is seen, both old ones are kept, and the other seat is spent.
pub struct JoinsSeats;

impl Join<View> for JoinsSeats {
    ghost use Rattle.log_word.specs.Views.{view_joined, spent_view};

    ghost both = { view_joined };

    ghost spent = { spent_view };
}
