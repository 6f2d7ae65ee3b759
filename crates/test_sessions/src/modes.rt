ghost use Rattle.std.specs.Prelude.{◌<◌};
ghost use Rattle.session_client.specs.Follows.{IsReady};

use crate::plays::{
    COMMITTED, OTHER, PENDING, PROFILE, REJECTED, WHO, begun, ends, hold, new_shard, plays,
    plays_anew, steps, store, takes, tell, value_of,
};
use key_shard::{Rel, Shard};
use lease_table::Mode;
use rows_model::{Change, Kind, QKey, Txn};
use session_client::{Outcome, Reply, Session, Wanted};
use std::alloc::Global;
use std::process::Abort;

/// An invitation touches the profile, the list of pending invitations and their number.
const REFRESH: &str = "write 1 refresh invite 1 2";

const LOOK: &str = "look 1 refresh pending:2 invite 1 2";

const N_PENDING: QKey = QKey {
    kind: Kind::NPending,
    id: 2,
};

const REFRESHES: &[(&str, &str)] = &[
    ("qaread profile:2", "shard"),
    ("qaread pending:2", "shard"),
    ("qaread npending:2", "shard"),
    ("commit 3 4 5", "made"),
    ("sar profile:2 1 [m2 0 1]", "gone"),
    ("sar pending:2 1 none", "gone"),
    ("sar npending:2 1 none", "gone"),
];

#[test]
fn refreshes_what_it_can(rt: HostRuntime) {
    let alloc = rt.alloc();
    let mut shard = new_shard(&rt, alloc);
    store(&rt, alloc, &mut shard, PROFILE, "m2 0 0");
    store(&rt, alloc, &mut shard, N_PENDING, "none");
    plays(&rt, alloc, &mut shard, REFRESH, REFRESHES, COMMITTED);
}

const COMES_BACK: &[(&str, &str)] = &[
    ("qaread profile:2", "shard"),
    ("qaread pending:2", "shard"),
    ("qaread npending:2", "shard"),
    ("commit 3 4 5", "made"),
    ("sar profile:2 1 [m2 0 1]", "back"),
    ("dar profile:2", "gone"),
    ("sar pending:2 1 [1]", "gone"),
];

/// The session has no value to put, so none can come back, and the release is told.
fn takes_nothing_back(rt: &impl Abort, session: &mut Session)
    requires { IsReady session.old }
    ensures { IsReady session.new }
{
    match session.wants() {
        Wanted::Sar {
            grant,
            value: None,
            stamp: 1,
        } => assert!(rt; !takes(session, Reply::SarBack { grant })),
        other => {
            other.let_go();
            panic!(rt; "something to put")
        }
    }
    tell(rt, session, Reply::Rel { answer: Rel::Gone });
}

#[test]
fn drops_what_came_back(rt: HostRuntime) {
    let alloc = rt.alloc();
    let mut shard = new_shard(&rt, alloc);
    store(&rt, alloc, &mut shard, PROFILE, "m2 0 0");
    store(&rt, alloc, &mut shard, PENDING, "");
    let mut session = begun(&rt, alloc, REFRESH);
    steps(&rt, alloc, &mut session, &mut shard, COMES_BACK);
    takes_nothing_back(&rt, &mut session);
    ends(&rt, session, COMMITTED);
}

/// The profile of 1.
const FIRST: QKey = QKey {
    kind: Kind::Profile,
    id: 1,
};

const BOTH_RENAMED: &[(&str, &str)] = &[
    ("qaread profile:2", "shard"),
    ("commit 2 2", "made"),
    ("sar profile:1 1 [ann 0 0]", "gone"),
    ("sar profile:2 1 [bob 1 0]", "gone"),
];

/// A shard of two, with a text on a key.
fn one_of_two(rt: &impl Abort, alloc: Global, no: u32, key: QKey, text: &str) -> Shard
    requires { no < 2 }
{
    let mut shard = Shard::new(alloc, no, 2, 8, 100, 1).expect(rt, "memory");
    store(rt, alloc, &mut shard, key, text);
    shard
}

#[test]
fn keeps_values_apart_whose_tokens_are_alike(rt: HostRuntime) {
    let alloc = rt.alloc();
    let mut odd = one_of_two(&rt, alloc, 1, FIRST, "m1 0 0");
    let mut even = one_of_two(&rt, alloc, 0, PROFILE, "m2 1 0");
    let mut session = begun(&rt, alloc, "write 1 refresh rename 1 ann + rename 2 bob");
    steps(
        &rt,
        alloc,
        &mut session,
        &mut odd,
        &[("qaread profile:1", "shard")],
    );
    steps(&rt, alloc, &mut session, &mut even, BOTH_RENAMED);
    ends(&rt, session, COMMITTED);
}

const SHIFTS: &[(&str, &str)] = &[
    ("qareg profile:2", "shard"),
    ("qareg pending:2", "shard"),
    ("delta npending:2 1", "shard"),
    ("commit 1 2 3", "made"),
    ("dar profile:2", "gone"),
    ("dar pending:2", "gone"),
    ("apply npending:2 1", "gone"),
];

#[test]
fn shifts_counts_alone(rt: HostRuntime) {
    plays_anew(
        &rt,
        rt.alloc(),
        "write 1 delta invite 1 2",
        SHIFTS,
        COMMITTED,
    );
}

const HOLDS_ONE: &[(&str, &str)] = &[
    ("qareg profile:2", "shard"),
    ("qareg pending:2", "shard"),
    ("qareg npending:2", "shard"),
    ("commit 2 3", "made"),
    ("dar profile:2", "gone"),
    ("dar npending:2", "gone"),
];

#[test]
fn commits_with_what_it_holds_already(rt: HostRuntime) {
    let mut shard = new_shard(&rt, rt.alloc());
    hold(&rt, &mut shard, PENDING, WHO, Mode::Invalidate);
    let line = "write 1 invalidate invite 1 2";
    plays(&rt, rt.alloc(), &mut shard, line, HOLDS_ONE, COMMITTED);
}

const LOOKS: &[(&str, &str)] = &[
    ("qaread profile:2", "shard"),
    ("qaread pending:2", "shard"),
    ("qaread npending:2", "shard"),
    ("get pending:2 0", "shard"),
];

const PUTS_NOTHING: &[(&str, &str)] = &[
    ("commit 1 2 3", "made"),
    ("sar profile:2 1 none", "gone"),
    ("sar pending:2 1 none", "gone"),
    ("sar npending:2 1 none", "gone"),
];

/// A value after another transaction than that of the session.
fn of_another(rt: &impl Abort, alloc: Global) -> Reply {
    let txn = Txn::of(alloc, &[Change::Invite { a: 3, b: 2 }]).expect(rt, "a transaction");
    let value = value_of(rt, alloc, "3");
    Reply::Staged { value, txn }
}

/// The session takes its transaction to the store, and takes the answer after that one alone.
fn takes_its_own_answer(rt: &impl Abort, alloc: Global, session: &mut Session)
    requires { IsReady session.old }
    ensures { IsReady session.new }
{
    match session.wants() {
        Wanted::Staged { key: PENDING, txn } => {
            assert!(rt; !takes(session, of_another(rt, alloc)));
            let value = value_of(rt, alloc, "1");
            tell(rt, session, Reply::Staged { value, txn });
        }
        other => {
            other.let_go();
            panic!(rt; "nothing staged")
        }
    }
}

#[test]
fn looks_at_its_own_key_and_commits(rt: HostRuntime) {
    let alloc = rt.alloc();
    let mut shard = new_shard(&rt, alloc);
    let mut session = begun(&rt, alloc, LOOK);
    steps(&rt, alloc, &mut session, &mut shard, LOOKS);
    takes_its_own_answer(&rt, alloc, &mut session);
    steps(&rt, alloc, &mut session, &mut shard, PUTS_NOTHING);
    ends(&rt, session, COMMITTED);
}

const WAS_REJECTED: &[(&str, &str)] = &[
    ("qaread profile:2", "shard"),
    ("qaread pending:2", "shard"),
    ("qaread npending:2", "shard"),
    ("get pending:2 0", "own"),
    ("stage pending:2", "rejected"),
    ("commit 1 2 3", "rejected"),
    ("end", "ended"),
    ("abort profile:2", "gone"),
    ("abort pending:2", "gone"),
    ("abort npending:2", "gone"),
];

#[test]
fn commits_what_was_rejected_when_it_looked(rt: HostRuntime) {
    plays_anew(&rt, rt.alloc(), LOOK, WAS_REJECTED, REJECTED);
}

const QUARANTINES: &[(&str, &str)] = &[
    ("qaread profile:2", "shard"),
    ("qaread pending:2", "shard"),
    ("qaread npending:2", "shard"),
];

const COMMITS: &[(&str, &str)] = &[("commit 1 2 3", "made"), ("sar profile:2 1 none", "gone")];

/// A session that looks is told this of its key, and commits.
fn looks_and_commits(rt: &impl Abort, alloc: Global, text: &str) {
    let mut shard = new_shard(rt, alloc);
    let mut session = begun(rt, alloc, LOOK);
    steps(rt, alloc, &mut session, &mut shard, QUARANTINES);
    steps(
        rt,
        alloc,
        &mut session,
        &mut shard,
        &[("get pending:2 0", text)],
    );
    steps(rt, alloc, &mut session, &mut shard, COMMITS);
    session.let_go();
}

#[test]
fn commits_whatever_it_is_told_of_its_key(rt: HostRuntime) {
    looks_and_commits(&rt, rt.alloc(), "hit");
    looks_and_commits(&rt, rt.alloc(), "lease");
    looks_and_commits(&rt, rt.alloc(), "spent");
}

/// Sessions that quit: what each is to do, and what it wants and is told.
const QUITS: &[(&str, &[(&str, &str)])] = &[
    (
        "quit 1 invalidate invite 1 2",
        &[
            ("qareg profile:2", "shard"),
            ("qareg pending:2", "shard"),
            ("qareg npending:2", "shard"),
            ("end", "ended"),
            ("abort profile:2", "gone"),
            ("abort pending:2", "gone"),
            ("abort npending:2", "gone"),
        ],
    ),
    (
        "quit 1 refresh invite 1 2",
        &[
            ("qaread profile:2", "shard"),
            ("qaread pending:2", "shard"),
            ("qaread npending:2", "shard"),
            ("end", "ended"),
            ("abort profile:2", "gone"),
            ("abort pending:2", "gone"),
            ("abort npending:2", "gone"),
        ],
    ),
    (
        "quit 1 delta invite 1 2",
        &[
            ("qareg profile:2", "shard"),
            ("qareg pending:2", "shard"),
            ("delta npending:2 1", "shard"),
            ("end", "ended"),
            ("abort profile:2", "gone"),
            ("abort pending:2", "gone"),
            ("abort npending:2", "gone"),
        ],
    ),
];

#[test]
fn quits_in_each_mode(rt: HostRuntime) {
    for (line, rows) in QUITS.iter() {
        plays_anew(&rt, rt.alloc(), line, rows, Outcome::Quit);
    }
}

const REFUSED: &[(&str, &str)] = &[
    ("qaread profile:2", "shard"),
    ("qaread pending:2", "shard"),
    ("end", "ended"),
    ("abort profile:2", "gone"),
];

#[test]
fn is_refused_before_it_quits(rt: HostRuntime) {
    let mut shard = new_shard(&rt, rt.alloc());
    hold(&rt, &mut shard, PENDING, OTHER, Mode::Invalidate);
    let refused = Outcome::Refused {
        holder: OTHER,
        mode: Mode::Invalidate,
    };
    let line = "quit 1 refresh invite 1 2";
    plays(&rt, rt.alloc(), &mut shard, line, REFUSED, refused);
}

const RAISES: &[(&str, &str)] = &[
    ("qareg profile:2", "shard"),
    ("qareg pending:2", "shard"),
    ("qareg npending:2", "shard"),
    ("raise profile:2", "shard"),
    ("raise pending:2", "shard"),
    ("raise npending:2", "back"),
    ("commit 3 4 5", "made"),
    ("sar profile:2 1 [m2 0 1]", "gone"),
    ("dar pending:2", "gone"),
    ("dar npending:2", "gone"),
];

/// The first key has a value, the second is shared, and for the third there is no memory.
#[test]
fn raises_what_it_has_alone(rt: HostRuntime) {
    let alloc = rt.alloc();
    let mut shard = new_shard(&rt, alloc);
    store(&rt, alloc, &mut shard, PROFILE, "m2 0 0");
    hold(&rt, &mut shard, PENDING, OTHER, Mode::Invalidate);
    let line = "raise 1 invite 1 2";
    plays(&rt, alloc, &mut shard, line, RAISES, COMMITTED);
}

const SPENT: &[(&str, &str)] = &[
    ("qareg profile:2", "shard"),
    ("qareg pending:2", "shard"),
    ("qareg npending:2", "shard"),
    ("raise profile:2", "shard"),
    ("raise pending:2", "gone"),
    ("raise npending:2", "shard"),
    ("commit 1 3", "rejected"),
    ("end", "ended"),
    ("abort profile:2", "gone"),
    ("abort npending:2", "gone"),
];

#[test]
fn goes_on_without_a_grant_that_is_spent(rt: HostRuntime) {
    plays_anew(&rt, rt.alloc(), "raise 1 invite 1 2", SPENT, REJECTED);
}

const RENEWS: &[(&str, &str)] = &[
    ("qareg profile:2", "shard"),
    ("qareg pending:2", "shard"),
    ("delta npending:2 1", "shard"),
    ("renew profile:2", "shard"),
    ("renew pending:2", "memory"),
    ("renew npending:2", "shard"),
    ("commit 1 2 3", "made"),
    ("dar profile:2", "gone"),
    ("dar pending:2", "gone"),
    ("apply npending:2 1", "gone"),
];

#[test]
fn renews_each_quarantine(rt: HostRuntime) {
    plays_anew(
        &rt,
        rt.alloc(),
        "renew 1 delta invite 1 2",
        RENEWS,
        COMMITTED,
    );
}
