// Whether changes apply in turn, told before any is made.
ghost use Rattle.std.specs.Prelude.{◌≡◌, ◌≤◌, ◌+◌, ◌==◌, ◌&&◌, ◌||◌, not, Ok, Err, length, fold, count_by, nat_lt, All, IfSome, IfNone};
ghost use Rattle.std.specs.List.{list_any};
ghost use Rattle.rows_model.specs.Rows.{Tables, Fit, joins};
ghost use Rattle.rows_model.specs.Changes.{HasIds, applies, apply_all, is_member, has_blocked};
ghost use Rattle.rows_model.specs.ApplyFaults.{AllApply};
ghost use Rattle.rows_model.specs.Judge.{bonds, still_bonds, adds, ends, is_block_of, adds_block};

use crate::changes::Change;
use crate::refreshing::has_id;
use crate::rows::{Link, Rows};

const MOST_LINKS: usize = 1_000_000;

const MOST_BLOCKS: usize = 1_000_000;

// What a change asks of the links between two members.
#[derive(Clone, Copy)]
pub(crate) enum Bond {
    // Some link joins them.
    Any,
    // The first has invited the second.
    Invitation,
    // They are friends.
    Friendship,
}

impl Bond {
    // Whether the link is such a bond of the two.
    fn holds(self, a: u32, b: u32, link: &Link) -> bool
        ensures { result ≡ bonds self a b link.now }
    {
        match self {
            Bond::Any => link.joins(a, b),
            Bond::Invitation => link.invites_by(a, b),
            Bond::Friendship => link.is_friendship(a, b),
        }
    }

    // Whether such a bond of the two is among the links.
    fn is_among(self, a: u32, b: u32, links: &[Link]) -> bool
        ensures { result ≡ list_any (bonds self a b) links.now }
    {
        links.iter().any(|link| self.holds(a, b, link))
    }

    // Whether such a bond of the two stands after the changes, where it stood or didn't before.
    fn holds_after(self, a: u32, b: u32, stood: bool, changes: &[Change]) -> bool
        ensures { result ≡ fold (still_bonds self a b) stood changes.now }
    {
        changes.iter().fold(stood, |stood, change| self.still_holds(a, b, stood, change))
    }

    // Whether such a bond of the two stands after the change, where it stood or didn't before.
    fn still_holds(self, a: u32, b: u32, stood: bool, change: &Change) -> bool
        ensures { result ≡ still_bonds self a b stood change.now }
    {
        match *change {
            Change::Invite { a: c, b: d } => stood || self.holds(a, b, &Link::invitation(c, d)),
            Change::Accept { a: c, b: d } => {
                !Link::invitation(c, d).joins(a, b) && stood
                    || self.holds(a, b, &Link::friendship(c, d))
            }
            Change::Reject { a: c, b: d } | Change::Thaw { a: c, b: d } => {
                !Link::invitation(c, d).joins(a, b) && stood
            }
            Change::Rename { .. } | Change::Block { .. } => stood,
        }
    }
}

// The place of the first change that doesn't apply in its turn.
pub(crate) fn first_refused(rows: &Rows, changes: &[Change]) -> Option<u32>
    requires ids { All HasIds changes.now }
    requires few { length changes.now ≤ 8 }
    ensures first { IfSome result (λ index. apply_all changes.now rows.now ≡ Err index) }
    ensures none { IfNone result (AllApply changes.now rows.now) }
    ensures fit { Fit rows.now }
{
    let count = rows.link_count();
    for index in 0..changes.len() {
        if !applies_after(rows, count, &changes[..index], &changes[index]) {
            return Some(index as u32);
        }
    }
    None
}

// Whether a change applies after the earlier ones, which apply, where there are so many links.
fn applies_after(rows: &Rows, count: usize, earlier: &[Change], change: &Change) -> bool
    requires fit { Fit rows.now }
    requires count { count ≡ length rows.now.links }
    requires ids { All HasIds earlier.now }
    requires few { length earlier.now ≤ 8 }
    ensures { (after : Tables) → apply_all earlier.now rows.now ≡ Ok after
        → result ≡ applies change.now after }
{
    match *change {
        Change::Invite { a, b } => can_invite(rows, count, earlier, a, b),
        Change::Accept { a, b } | Change::Reject { a, b } => {
            has_bond(rows, earlier, Bond::Invitation, a, b)
        }
        Change::Thaw { a, b } => has_bond(rows, earlier, Bond::Friendship, a, b),
        Change::Rename { a, .. } => has_member(rows, a),
        Change::Block { a, b } => can_block(rows, rows.block_count(), earlier, a, b),
    }
}

// Whether `a` may invite `b` after the earlier changes.
fn can_invite(rows: &Rows, count: usize, earlier: &[Change], a: u32, b: u32) -> bool
    requires links { count ≤ 1000000 }
    requires few { length earlier.now ≤ 8 }
    ensures { result ≡ (not (a == b) && is_member a rows.now && is_member b rows.now
        && not (fold (still_bonds Bond.Any a b) (list_any (joins a b) rows.now.links) earlier.now)
        && not (has_blocked a b rows.now || list_any (is_block_of a b) earlier.now)
        && not (has_blocked b a rows.now || list_any (is_block_of b a) earlier.now)
        && nat_lt (count + count_by adds earlier.now) (1000000 + count_by ends earlier.now)) }
{
    a != b
        && has_member(rows, a)
        && has_member(rows, b)
        && !has_bond(rows, earlier, Bond::Any, a, b)
        && !has_block(rows, earlier, a, b)
        && !has_block(rows, earlier, b, a)
        && count + adding(earlier) < MOST_LINKS + ending(earlier)
}

// Whether `a` may block `b` after the earlier changes, where there are so many blocks.
fn can_block(rows: &Rows, blocks: usize, earlier: &[Change], a: u32, b: u32) -> bool
    requires blocks { blocks ≤ 1000000 }
    requires few { length earlier.now ≤ 8 }
    ensures { result ≡ (not (a == b) && is_member a rows.now && is_member b rows.now
        && not (fold (still_bonds Bond.Any a b) (list_any (joins a b) rows.now.links) earlier.now)
        && not (has_blocked a b rows.now || list_any (is_block_of a b) earlier.now)
        && nat_lt (blocks + count_by adds_block earlier.now) 1000000) }
{
    a != b
        && has_member(rows, a)
        && has_member(rows, b)
        && !has_bond(rows, earlier, Bond::Any, a, b)
        && !has_block(rows, earlier, a, b)
        && blocks + blocking(earlier) < MOST_BLOCKS
}

// Whether some member has this id.
fn has_member(rows: &Rows, id: u32) -> bool
    ensures { result ≡ is_member id rows.now }
{
    rows.member(id).is_some()
}

// Whether such a bond of the two stands after the earlier changes.
fn has_bond(rows: &Rows, earlier: &[Change], bond: Bond, a: u32, b: u32) -> bool
    ensures { result ≡ fold (still_bonds bond a b) (list_any (bonds bond a b) rows.now.links)
        earlier.now }
{
    let stood = bond.is_among(a, b, rows.links_of(a));
    bond.holds_after(a, b, stood, earlier)
}

// Whether `a` has blocked `b`, after the earlier changes.
fn has_block(rows: &Rows, earlier: &[Change], a: u32, b: u32) -> bool
    ensures { result ≡ (has_blocked a b rows.now || list_any (is_block_of a b) earlier.now) }
{
    has_blocked(rows, a, b) || blocks(earlier, a, b)
}

// Whether one of the changes is the block of `b` by `a`.
fn blocks(changes: &[Change], a: u32, b: u32) -> bool
    ensures { result ≡ list_any (is_block_of a b) changes.now }
{
    changes.iter().any(|change| is_block_of(change, a, b))
}

// Whether `a` has blocked `b`.
fn has_blocked(rows: &Rows, a: u32, b: u32) -> bool
    ensures { result ≡ has_blocked a b rows.now }
{
    has_id(rows.blocked_by(a), b)
}

// Whether the change is the block of `b` by `a`.
fn is_block_of(change: &Change, a: u32, b: u32) -> bool
    ensures { result ≡ is_block_of a b change.now }
{
    match *change {
        Change::Block { a: c, b: d } => c == a && d == b,
        _ => false,
    }
}

// How many of the changes make the links one more.
pub(crate) fn adding(changes: &[Change]) -> usize
    ensures count { result ≡ count_by adds changes.now }
    ensures bound { result ≤ length changes.now }
{
    changes
        .iter()
        .filter(|change| matches!(change, Change::Invite { .. }))
        .count()
}

// How many of the changes make the links one less.
pub(crate) fn ending(changes: &[Change]) -> usize
    ensures count { result ≡ count_by ends changes.now }
    ensures bound { result ≤ length changes.now }
{
    changes
        .iter()
        .filter(|change| matches!(change, Change::Reject { .. } | Change::Thaw { .. }))
        .count()
}

// How many of the changes make the blocks one more.
pub(crate) fn blocking(changes: &[Change]) -> usize
    ensures count { result ≡ count_by adds_block changes.now }
    ensures bound { result ≤ length changes.now }
{
    changes
        .iter()
        .filter(|change| matches!(change, Change::Block { .. }))
        .count()
}
