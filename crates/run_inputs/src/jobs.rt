// What the words behind a session's number say.
ghost use Rattle.std.specs.Prelude.{◌≡◌, ℕ, [], ◌∷◌, Option, Some, IfSome, IfNone};
ghost use Rattle.std.specs.Option.{option_copied};
ghost use Rattle.lease_table.specs.declared.records.Mode.{Mode};
ghost use Rattle.run_inputs.specs.Lines.{AreFloor, mode_word};
ghost use Rattle.run_inputs.specs.Parsing.{words_behind, IsJobOf, IsNoJob};
ghost use Rattle.run_inputs.specs.declared.lines.Task.TheVariants as task;

use crate::cuts::{cut, only_number};
use crate::lines::{Job, Task};
use crate::txns::changes_of;
use lease_table::Mode;
use rows_model::QKey;

/// The job for the task that the words behind a session's number say.
pub(crate) fn job_of(task: Task, args: Option<&[u8]>) -> Option<Job>
    ensures found { IfSome result
        (λ job. IsJobOf task (words_behind (option_copied args.entry)) job) }
    ensures none { IfNone result (IsNoJob task (words_behind (option_copied args.entry))) }
{
    let Some(text) = args else {
        return None;
    };
    let (word, more) = cut(text, b' ');
    match task {
        Task::Read => read_of(word, more),
        Task::Write => write_of(word, more),
        Task::Look => look_of(word, more),
        Task::Quit => quit_of(word, more),
        Task::Skip => skip_of(word, more),
        Task::Raise => raise_of(text),
        Task::Renew => renew_of(word, more),
    }
}

fn read_of(word: &[u8], more: Option<&[u8]>) -> Option<Job>
    ensures found { IfSome result
        (λ job. IsJobOf task.Read (word.now ∷ words_behind (option_copied more.entry)) job) }
    ensures none { IfNone result
        (IsNoJob task.Read (word.now ∷ words_behind (option_copied more.entry))) }
{
    let key = QKey::parse(word)?;
    let floor = floor_of(more)?;
    Some(Job::Read { key, floor })
}

fn write_of(word: &[u8], more: Option<&[u8]>) -> Option<Job>
    ensures found { IfSome result
        (λ job. IsJobOf task.Write (word.now ∷ words_behind (option_copied more.entry)) job) }
    ensures none { IfNone result
        (IsNoJob task.Write (word.now ∷ words_behind (option_copied more.entry))) }
{
    let mode = mode_of(word)?;
    let txn = changes_of(more)?;
    Some(Job::Write { mode, txn })
}

fn look_of(word: &[u8], more: Option<&[u8]>) -> Option<Job>
    ensures found { IfSome result
        (λ job. IsJobOf task.Look (word.now ∷ words_behind (option_copied more.entry)) job) }
    ensures none { IfNone result
        (IsNoJob task.Look (word.now ∷ words_behind (option_copied more.entry))) }
{
    let mode = mode_of(word)?;
    let (next, rest) = cut(more?, b' ');
    let key = QKey::parse(next)?;
    let txn = changes_of(rest)?;
    Some(Job::Look { mode, key, txn })
}

fn quit_of(word: &[u8], more: Option<&[u8]>) -> Option<Job>
    ensures found { IfSome result
        (λ job. IsJobOf task.Quit (word.now ∷ words_behind (option_copied more.entry)) job) }
    ensures none { IfNone result
        (IsNoJob task.Quit (word.now ∷ words_behind (option_copied more.entry))) }
{
    let mode = mode_of(word)?;
    let txn = changes_of(more)?;
    Some(Job::Quit { mode, txn })
}

fn skip_of(word: &[u8], more: Option<&[u8]>) -> Option<Job>
    ensures found { IfSome result
        (λ job. IsJobOf task.Skip (word.now ∷ words_behind (option_copied more.entry)) job) }
    ensures none { IfNone result
        (IsNoJob task.Skip (word.now ∷ words_behind (option_copied more.entry))) }
{
    let key = QKey::parse(word)?;
    let txn = changes_of(more)?;
    Some(Job::Skip { key, txn })
}

fn raise_of(text: &[u8]) -> Option<Job>
    ensures found { IfSome result (λ job. IsJobOf task.Raise (words_behind (Some text.now)) job) }
    ensures none { IfNone result (IsNoJob task.Raise (words_behind (Some text.now))) }
{
    let txn = changes_of(Some(text))?;
    Some(Job::Raise { txn })
}

fn renew_of(word: &[u8], more: Option<&[u8]>) -> Option<Job>
    ensures found { IfSome result
        (λ job. IsJobOf task.Renew (word.now ∷ words_behind (option_copied more.entry)) job) }
    ensures none { IfNone result
        (IsNoJob task.Renew (word.now ∷ words_behind (option_copied more.entry))) }
{
    let mode = mode_of(word)?;
    let txn = changes_of(more)?;
    Some(Job::Renew { mode, txn })
}

// The floor of a `read` line, or that there is none; `None` where there are other words.
fn floor_of(args: Option<&[u8]>) -> Option<Option<u64>>
    ensures found { IfSome result
        (λ floor. AreFloor floor (words_behind (option_copied args.entry))) }
    ensures none { IfNone result
        ((floor : Option ℕ) → AreFloor floor (words_behind (option_copied args.entry)) → ⊥) }
{
    let Some(args) = args else {
        return Some(None);
    };
    let (word, more) = cut(args, b' ');
    if word != b"floor".as_slice() {
        return None;
    }
    let floor = only_number(more)?;
    Some(Some(floor))
}

// The mode of which this is the word.
fn mode_of(word: &[u8]) -> Option<Mode>
    ensures found { IfSome result (λ mode. word.now ≡ mode_word mode) }
    ensures none { IfNone result ((mode : Mode) → word.now ≡ mode_word mode → ⊥) }
{
    match word {
        b"invalidate" => Some(Mode::Invalidate),
        b"refresh" => Some(Mode::Refresh),
        b"delta" => Some(Mode::Delta),
        _ => None,
    }
}
