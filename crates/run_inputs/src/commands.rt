// The words of the program's commands.
ghost use Rattle.std.specs.Prelude.{◌≡◌, ℕ, map, Some, IfSome, IfNone};
ghost use Rattle.run_inputs.specs.declared.loads.WorkSpec.{WorkSpec};
ghost use Rattle.run_inputs.specs.Words.{AreWork};
ghost use Rattle.run_inputs.specs.Parsing.{AreNumbers, IsNumberWithin};

use crate::loads::WorkSpec;
use rows_model::number_of;

/// The load that the words ask for, or `None` exactly where they aren't the word `work` and five
/// numbers in decimal, each within its range: members 1 to 100,000, sessions 0 to 500,000, workers
/// 1 to 64, shards 1 to 64, and a seed below 2^64.
pub fn work_words(words: &[Vec<u8>]) -> Option<WorkSpec>
    ensures found { IfSome result (λ spec. AreWork (map (λ word. word.items) words.now) spec) }
    ensures told { (spec : WorkSpec) →
        AreWork (map (λ word. word.items) words.now) spec → result ≡ Some spec }
{
    let [word, members, sessions, workers, shards, seed] = words else {
        return None;
    };
    if word.as_slice() != b"work".as_slice() {
        return None;
    }
    spec_of(members, sessions, workers, shards, seed)
}

// The load of which the words are the five numbers.
fn spec_of(
    members: &[u8],
    sessions: &[u8],
    workers: &[u8],
    shards: &[u8],
    seed: &[u8],
) -> Option<WorkSpec>
    ensures found { IfSome result
        (λ spec. AreNumbers members.now sessions.now workers.now shards.now seed.now spec) }
    ensures none { IfNone result ((spec : WorkSpec) →
        AreNumbers members.now sessions.now workers.now shards.now seed.now spec → ⊥) }
{
    Some(WorkSpec {
        members: number_within(members, 1, 100_000)?,
        sessions: number_within(sessions, 0, 500_000)?,
        workers: number_within(workers, 1, 1_024)?,
        shards: number_within(shards, 1, 64)?,
        seed: number_of(seed)?,
    })
}

/// The number that the word is in decimal, with no sign and no leading zero, if it is at least and at
/// most so great.
pub fn number_within(word: &[u8], least: u32, most: u32) -> Option<u32>
    ensures found { IfSome result (λ number. IsNumberWithin word.now least most number) }
    ensures none { IfNone result
        ((number : ℕ) → IsNumberWithin word.now least most number → ⊥) }
{
    let number = number_of(word)?;
    if number < u64::from(least) || number > u64::from(most) {
        return None;
    }
    Some(number as u32)
}
