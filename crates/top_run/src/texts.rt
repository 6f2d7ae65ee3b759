// A text that the words ask for.
ghost use Rattle.std.specs.Prelude.{◌≡◌, ◌≢◌, ◌≤◌, ℕ, [], List, Option, None};
ghost use Rattle.std.specs.Bool.{IsFalse};
ghost use Rattle.top_run.specs.Commands.{IsTextPart, IsTextPrinted};
ghost use Rattle.top_run.specs.Runs.{Input, Prints, seen, left_at, RoseWhere, CountsWhere, is_read_fault, is_write_fault, is_door_fault};
ghost use Rattle.top_run.specs.declared.runs.Status.{Status};

use crate::endings::not_started;
use crate::printing::print;
use crate::runs::{RunEnd, Status};
use iq_outside::Sink;
use sql_keeper::Keeper;
use std::alloc::Global;

/// Writes a text, and runs nothing.
pub(crate) fn tell<W: Sink, K: Keeper>(
    alloc: Global,
    text: &[u8],
    sink: &mut W,
    keeper: K,
) -> RunEnd<K>
    ensures told { (unread : Input) →
        let before = seen unread W.Sink K.Keeper sink.old keeper in
        let after = seen unread W.Sink K.Keeper sink.new result.keeper in
        IsTextPrinted text.now result.status before after (left_at result) result.written }
    ensures keeper { result.keeper ≡ keeper }
    ensures opening { result.opening ≡ None }
    ensures no_ends { result.ends.items ≡ [] }
    ensures none_earlier { result.earlier.items ≡ [] }
    ensures writes { CountsWhere W.faults (is_write_fault result.status) sink.old sink.new }
    ensures no_read_fault { IsFalse (is_read_fault result.status) }
    ensures no_door_fault { IsFalse (is_door_fault result.status) }
    ensures no_keep_fault { result.status ≢ Status.KeepFault }
{
    let mut written = 0;
    let status = say(sink, &mut written, text);
    let mut end = not_started(alloc, status, keeper);
    end.written = written;
    end
}

/// Writes a text, and answers how the run ends.
fn say<W: Sink>(sink: &mut W, written: &mut u64, text: &[u8]) -> Status
    ensures said { (taken : Option (List ℕ)) →
        Prints taken (W.taken sink.old) [] written.old →
        (printed : List ℕ) × IsTextPart result text.now printed ×
        Prints taken (W.taken sink.new) printed written.new }
    ensures writes { RoseWhere W.faults (is_write_fault result) sink.old sink.new }
    ensures no_read_fault { IsFalse (is_read_fault result) }
    ensures no_door_fault { IsFalse (is_door_fault result) }
    ensures no_keep_fault { result ≢ Status.KeepFault }
    ensures never_falls { W.faults sink.old ≤ W.faults sink.new }
{
    match print(sink, written, text) {
        Ok(()) => Status::Done,
        Err(_) => Status::WriteFault,
    }
}
