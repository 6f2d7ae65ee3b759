ghost use Rattle.run_inputs.specs.Loads.{IsWork};

use crate::texts::plan_text;
use crate::words::words_of;
use run_inputs::{WorkSpec, make_plans, work_words};
use session_client::Plan;
use std::alloc::{AllocError, Global};
use std::process::Abort;
use std::test::Fail;

// The plans in words, each with a semicolon behind it, and each worker's on a line of its own.
fn load_text(alloc: Global, workers: &[Vec<Plan>]) -> Result<String, AllocError> {
    let mut text = String::new(alloc);
    for plans in workers {
        for plan in plans {
            text.push_str(plan_text(alloc, plan)?.as_str())?;
            text.push(';')?;
        }
        text.push('\n')?;
    }
    Ok(text)
}

/// Small loads: members, sessions, workers, shards and seed, and the plans of each worker. Another
/// program drew them, after the generator's reference code.
const LOADS: [(&str, &str); 8] = [
    // Each kind of key, of change and of mode.
    (
        "work 7 18 3 1 294",
        "read Profile:2 floor 0;write Refresh + thaw 5 1;write Delta + invite 4 7;read Friends:6 floor 0;write Invalidate + invite 1 3;read NFriends:1 floor 0;\nread Friends:5 floor 0;read NFriends:3 floor 0;read Friends:1 floor 0;write Delta + reject 6 7;read Pending:4 floor 0;write Invalidate + rename 4 n6;\nwrite Delta + accept 4 5;write Refresh + invite 1 5;read NFriends:2 floor 0;read Profile:1 floor 0;read NPending:3 floor 0;read Friends:7 floor 0;\n",
    ),
    // One member is also the other.
    (
        "work 1 8 2 64 18446744073709551615",
        "read Pending:1 floor 0;write Refresh + rename 1 n1;read Pending:1 floor 0;write Invalidate + invite 1 1;\nread NPending:1 floor 0;read NPending:1 floor 0;write Invalidate + thaw 1 1;read NPending:1 floor 0;\n",
    ),
    // A seed is 64 bits wide.
    (
        "work 100000 3 5 1 4294967297",
        "read NFriends:24036 floor 0;\nread NFriends:51007 floor 0;\nread Pending:54938 floor 0;\n\n\n",
    ),
    (
        "work 100000 4 1 8 1",
        "read Pending:47765 floor 0;read NPending:84698 floor 0;read Pending:64044 floor 0;read Profile:34866 floor 0;\n",
    ),
    // The shards change no plan.
    (
        "work 100000 4 1 64 1",
        "read Pending:47765 floor 0;read NPending:84698 floor 0;read Pending:64044 floor 0;read Profile:34866 floor 0;\n",
    ),
    (
        "work 5 12 1 1 9223372036854788153",
        "read Pending:2 floor 0;read Profile:2 floor 0;write Refresh + invite 1 3;write Refresh + invite 4 5;read Profile:5 floor 0;read Pending:4 floor 0;read NFriends:5 floor 0;write Invalidate + reject 2 1;read NPending:3 floor 0;read Profile:2 floor 0;read Profile:3 floor 0;write Delta + accept 3 5;\n",
    ),
    // No session.
    ("work 3 0 1 1 0", "\n"),
    ("work 3 0 3 1 0", "\n\n\n"),
];

/// The load that the words of a line ask for.
fn load_of(rt: &impl Abort, alloc: Global, line: &str) -> WorkSpec
    ensures { IsWork result }
{
    let words = words_of(alloc, line).expect(rt, "memory");
    work_words(&words).expect(rt, "a load")
}

/// The load of these words has these plans.
fn draws(rt: &impl Abort, alloc: Global, line: &str, want: &str) {
    let spec = load_of(rt, alloc, line);
    let plans = make_plans(alloc, &spec).expect(rt, "memory");
    assert!(rt; plans.len() == spec.workers as usize);
    let text = load_text(alloc, &plans).expect(rt, "memory");
    assert!(rt; text.as_str() == want, "at {line}");
}

#[test]
fn loads_are_drawn_from_their_seeds(rt: HostRuntime) {
    for (line, want) in LOADS.iter() {
        draws(&rt, rt.alloc(), line, want);
    }
}

/// The last plan of some of the workers of the longest load.
const LAST_PLANS: [(usize, usize, &str); 4] = [
    (0, 7_813, "write Delta + invite 89707 89711"),
    (2, 7_813, "read Friends:29513 floor 0"),
    (3, 7_813, "write Delta + invite 10176 10178"),
    (63, 7_812, "write Refresh + accept 12595 12596"),
];

const LONGEST: &str = "work 100000 500000 64 64 18446744073709551615";

/// The plans of a worker are so many, and this is the last.
fn ends_with(rt: &impl Abort, alloc: Global, plans: &[Plan], count: usize, want: &str) {
    assert!(rt; plans.len() == count);
    match plans.last() {
        Some(last) => {
            let text = plan_text(alloc, last).expect(rt, "memory");
            assert!(rt; text.as_str() == want, "at {want}");
        }
        None => panic!(rt; "no plan"),
    }
}

#[test]
fn the_longest_load_is_drawn_to_its_end(rt: HostRuntime) -> Result<(), Fail> {
    let spec = load_of(&rt, rt.alloc(), LONGEST);
    let workers = make_plans(rt.alloc(), &spec)?;
    assert!(rt; workers.len() == 64);
    for (worker, count, want) in LAST_PLANS.iter() {
        let plans = workers.get(*worker).ok_or("a worker")?;
        ends_with(&rt, rt.alloc(), plans.as_slice(), *count, want);
    }
    Ok(())
}

/// Members, sessions, workers, shards and seed.
type Numbers = (u32, u32, u32, u32, u64);

/// What asks for a load of these numbers.
fn spec(numbers: &Numbers) -> WorkSpec {
    WorkSpec {
        members: numbers.0,
        sessions: numbers.1,
        workers: numbers.2,
        shards: numbers.3,
        seed: numbers.4,
    }
}

/// Words that ask for a load.
const GOOD: [(&str, Numbers); 4] = [
    ("work 1 0 1 1 0", (1, 0, 1, 1, 0)),
    (
        "work 100000 500000 1024 64 18446744073709551615",
        (100_000, 500_000, 1_024, 64, 18446744073709551615),
    ),
    ("work 1000 20000 4 8 1", (1_000, 20_000, 4, 8, 1)),
    ("work 10 9 8 7 4294967296", (10, 9, 8, 7, 4294967296)),
];

/// The words of a line ask for this load, or for none.
fn asks(rt: &impl Abort, alloc: Global, line: &str, want: Option<WorkSpec>) {
    let words = words_of(alloc, line).expect(rt, "memory");
    assert!(rt; work_words(&words) == want, "at {line:?}");
}

#[test]
fn words_ask_for_a_load(rt: HostRuntime) {
    for (line, numbers) in GOOD.iter() {
        asks(&rt, rt.alloc(), line, Some(spec(numbers)));
    }
}

/// Words that ask for none.
const WRONG: [&str; 31] = [
    "",
    "replay",
    "work",
    "work 3",
    "work 3 10 2 1",
    "work 3 10 2 1 7 1",
    "work 3 10 2 1 7 ",
    " work 3 10 2 1 7",
    "Work 3 10 2 1 7",
    "works 3 10 2 1 7",
    "serve 3 10 2 1 7",
    "work 0 10 2 1 7",
    "work 100001 10 2 1 7",
    "work 4294967299 10 2 1 7",
    "work 3 500001 2 1 7",
    "work 3 10 0 1 7",
    "work 3 10 1025 1 7",
    "work 3 10 2 0 7",
    "work 3 10 2 65 7",
    "work 3 10 2 1 18446744073709551616",
    "work 03 10 2 1 7",
    "work 3 010 2 1 7",
    "work 3 10 02 1 7",
    "work 3 10 2 01 7",
    "work 3 10 2 1 07",
    "work +3 10 2 1 7",
    "work 3 -0 2 1 7",
    "work 3 10 2.0 1 7",
    "work 3 10 2 1 0x7",
    "work 3  2 1 7",
    "work 3 10 2 1 seven",
];

#[test]
fn other_words_ask_for_none(rt: HostRuntime) {
    for line in WRONG.iter() {
        asks(&rt, rt.alloc(), line, None);
    }
    assert!(rt; work_words(&[]) == None);
}
