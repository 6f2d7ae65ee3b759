ghost use Rattle.std.specs.Prelude.{◌≡◌, ◌≤◌, ◌&&◌, ◌==◌, Ok, Err, length, filter, All, IsTrue, IfSome, IfNone, IfOk, IfErr, OnOk, OnErr};
ghost use Rattle.std.specs.Option.{option_copied};
ghost use Rattle.rows_model.specs.Name.{IsName};
ghost use Rattle.rows_model.specs.Members.{AreMembers, members_only, is_next, ascend_from};
ghost use Rattle.rows_model.specs.Rows.{Fit, start_tables, member_of, joins, is_pending, is_friend};
ghost use Rattle.rows_model.specs.Changes.{HasIds, is_before, invitation, friendship, apply_all};
ghost use Rattle.rows_model.specs.ApplyFaults.{IsRejection, AllApply};
ghost use Rattle.rows_model.specs.Query.{invites, befriends, other_end, friend_count, pending_count, blocked_ids};
ghost use Rattle.rows_model.specs.Near.{is_end};

use crate::changes::Txn;
use crate::judging::{adding, blocking, ending, first_refused};
use crate::names::Name;
use crate::near::{Near, copied, make_all, make_room, member_place, no_links, place_of};
use crate::refusals::{ApplyFault, Memory};
use std::alloc::Global;
use std::marker::Model;

/// A member of the store.
#[derive(Clone, Copy)]
pub struct Member {
    /// From 1 to 100,000.
    pub id: u32,
    pub name: Name,
}

/// How two members are linked.
#[derive(Clone, Copy)]
pub enum LinkState {
    /// `a` has invited `b`, who hasn't answered.
    Pending,
    /// `a` and `b` are friends, and `a` is the smaller id.
    Friend,
}

/// A link between two different members.
#[derive(Clone, Copy)]
pub struct Link {
    pub a: u32,
    pub b: u32,
    pub state: LinkState,
}

impl Link {
    /// Whether this is a pending invitation to this member.
    pub fn invites(&self, id: u32) -> bool
        ensures { result ≡ invites id self.now }
    {
        self.state == LinkState::Pending && self.b == id
    }

    /// Whether this makes the member a friend of another.
    pub fn befriends(&self, id: u32) -> bool
        ensures { result ≡ befriends id self.now }
    {
        self.state == LinkState::Friend && (self.a == id || self.b == id)
    }

    /// The other end of a link of this member.
    pub fn other_end(&self, id: u32) -> u32
        ensures { result ≡ other_end id self.now }
    {
        if self.a == id { self.b } else { self.a }
    }
}

impl Link {
    /// Whether the link joins these two, in whichever order.
    pub fn joins(&self, a: u32, b: u32) -> bool
        ensures { result ≡ joins a b self.now }
    {
        self.a == a && self.b == b || self.a == b && self.b == a
    }

    /// Whether this is the pending invitation of `b` by `a`.
    pub fn invites_by(&self, a: u32, b: u32) -> bool
        ensures { result ≡ (is_pending self.now.state && (self.now.a == a) && (self.now.b == b)) }
    {
        self.state == LinkState::Pending && self.a == a && self.b == b
    }

    /// Whether this is the friendship of the two.
    pub fn is_friendship(&self, a: u32, b: u32) -> bool
        ensures { result ≡ (is_friend self.now.state && joins a b self.now) }
    {
        self.state == LinkState::Friend && self.joins(a, b)
    }

    // Whether the link stands before another.
    pub(crate) fn is_before(&self, later: &Link) -> bool
        ensures { result ≡ is_before later.now self.now }
    {
        self.a < later.a || self.a == later.a && self.b < later.b
    }

    /// The pending invitation of `b` by `a`.
    pub fn invitation(a: u32, b: u32) -> Link
        ensures { result ≡ invitation a b }
    {
        Link {
            a,
            b,
            state: LinkState::Pending,
        }
    }

    /// The friendship of the two, which names the smaller id first.
    pub fn friendship(a: u32, b: u32) -> Link
        ensures { result ≡ friendship a b }
    {
        Link {
            a: a.min(b),
            b: a.max(b),
            state: LinkState::Friend,
        }
    }
}

/// The rows of the store. Contracts see the three lists: the members by id, the links by their two
/// ids, and the blocks by the one who blocks and the one who is blocked.
///
/// The links are kept twice, in the lists of their two members, and a block in the list of the one who
/// blocks, so that an answer about a member walks its links or its blocks alone.
#[derive(Drop)]
pub struct Rows {
    members: Vec<Member>,
    near: Vec<Near>,
    count: usize,
    blocks: usize,
}

impl Model for Rows {
    ghost use Rattle.rows_model.specs.Rows.{Tables};
    ghost use Rattle.rows_model.specs.Near.{tables_in, AreKept};

    ghost Value = { Tables };

    ghost view = { λ r. tables_in r.members.items r.near.items };

    ghost invariant = { λ r. AreKept r.members.items r.near.items r.count r.blocks };
}

impl Rows {
    /// The members 1 to `members`, named `m1`, `m2` and so on, no links and no blocks.
    pub fn start(alloc: Global, members: u32) -> Result<Rows, Memory>
        requires some { 1 ≤ members }
        requires few { members ≤ 100000 }
        ensures { IfOk result (λ rows. rows ≡ start_tables members) }
    {
        let mut rows = Vec::new(alloc);
        for id in 1..members + 1 {
            rows.push(Member {
                id,
                name: Name::numbered(id),
            })?;
        }
        Ok(Rows {
            near: no_links(alloc, rows.as_slice())?,
            members: rows,
            count: 0,
            blocks: 0,
        })
    }

    /// The rows of these members, with no links and no blocks. `None` exactly where their ids don't
    /// ascend, or one isn't from 1 to 100,000.
    pub fn of_members(alloc: Global, members: Vec<Member>) -> Result<Option<Rows>, Memory>
        ensures found { IfOk result (λ found. IfSome found (λ rows.
            rows ≡ members_only members.items)) }
        ensures none { IfOk result (λ found. IfNone found (AreMembers members.items → ⊥)) }
    {
        if !are_members(members.as_slice()) {
            return Ok(None);
        }
        Ok(Some(Rows {
            near: no_links(alloc, members.as_slice())?,
            members,
            count: 0,
            blocks: 0,
        }))
    }

    /// The same rows once more.
    pub fn copy(&self) -> Result<Rows, Memory>
        ensures { IfOk result (λ rows. rows ≡ self.now) }
    {
        let alloc = *self.members.allocator();
        Ok(Rows {
            members: Vec::from_slice(alloc, self.members.as_slice())?,
            near: copied(alloc, self.near.as_slice())?,
            count: self.count,
            blocks: self.blocks,
        })
    }

    /// The members, by id.
    pub fn members(&self) -> &[Member]
        ensures items { result.now ≡ self.now.members }
        ensures fit { Fit self.now }
    {
        self.members.as_slice()
    }

    /// How many links there are.
    pub fn link_count(&self) -> usize
        ensures count { result ≡ length self.now.links }
        ensures fit { Fit self.now }
    {
        self.count
    }

    /// How many blocks there are.
    pub fn block_count(&self) -> usize
        ensures count { result ≡ length self.now.blocks }
        ensures fit { Fit self.now }
    {
        self.blocks
    }

    // The ids of those whom this member has blocked, ascending.
    pub(crate) fn blocked_by(&self, id: u32) -> &[u32]
        ensures { result.now ≡ blocked_ids id self.now }
    {
        match place_of(self.near.as_slice(), id) {
            Some(place) => self.near[place].blocked.as_slice(),
            None => &[],
        }
    }

    // The links of which this member is an end, by their two ids.
    pub(crate) fn links_of(&self, id: u32) -> &[Link]
        ensures { result.now ≡ filter (is_end id) self.now.links }
    {
        match place_of(self.near.as_slice(), id) {
            Some(place) => self.near[place].links.as_slice(),
            None => &[],
        }
    }

    /// The member with this id.
    pub fn member(&self, id: u32) -> Option<&Member>
        ensures { option_copied result ≡ member_of id self.now }
    {
        match member_place(self.members.as_slice(), id) {
            Some(place) => Some(&self.members[place]),
            None => None,
        }
    }

    /// How many friends a member has.
    pub fn friend_count(&self, id: u32) -> u64
        ensures { result ≡ friend_count id self.now }
    {
        self.links_of(id)
            .iter()
            .filter(|link| link.befriends(id))
            .count() as u64
    }

    /// How many invitations to a member are pending.
    pub fn pending_count(&self, id: u32) -> u64
        ensures { result ≡ pending_count id self.now }
    {
        self.links_of(id)
            .iter()
            .filter(|link| link.invites(id))
            .count() as u64
    }

    /// The place of the first change of the transaction that doesn't apply in its turn, or `None`
    /// where all apply. It takes no memory, and looks at the members that the transaction names and
    /// their links and blocks alone.
    pub fn judge(&self, txn: &Txn) -> Option<u32>
        ensures first { IfSome result (λ index. apply_all txn.now self.now ≡ Err index) }
        ensures none { IfNone result (AllApply txn.now self.now) }
        ensures fit { Fit self.now }
        ensures ids { All HasIds txn.now }
    {
        first_refused(self, txn.changes())
    }

    /// Makes the changes of the transaction in turn, all or none. `Rejected` comes exactly where a
    /// change doesn't apply, with the place of the first. Memory is asked for only once all are judged,
    /// where links or blocks are added, so `Memory` comes only where the transaction applies. After a
    /// fault the rows are as before. No row is written but those that the changes alter.
    pub fn apply(&mut self, txn: &Txn) -> Result<(), ApplyFault>
        ensures made { OnOk result (apply_all txn.now self.old ≡ Ok self.new) }
        ensures fault { IfErr result (λ fault. IsRejection txn.now self.old fault) }
        ensures memory { result ≡ Err ApplyFault.Memory → AllApply txn.now self.old }
        ensures kept { OnErr result (self.new ≡ self.old) }
    {
        let changes = txn.changes();
        if let Some(index) = self.judge(txn) {
            return Err(ApplyFault::Rejected { index });
        }
        make_room(self.near.as_mut_slice(), changes, changes.len())?;
        make_all(
            self.members.as_mut_slice(),
            self.near.as_mut_slice(),
            changes,
        );
        self.count = self.count + adding(changes) - ending(changes);
        self.blocks += blocking(changes);
        Ok(())
    }
}

// Whether the ids of the members ascend, and are from 1 to 100,000.
fn are_members(members: &[Member]) -> bool
    ensures ascend { result ≡ ascend_from 0 members.now }
    ensures names { IsTrue result → All (λ member. IsName member.name) members.now }
{
    let mut last = 0;
    for member in members {
        if !is_next(last, member) {
            return false;
        }
        last = member.id;
    }
    true
}

// Whether the member's id is above this one, and at most 100,000.
fn is_next(last: u32, member: &Member) -> bool
    ensures next { result ≡ is_next last member.now }
    ensures name { IsName member.now.name }
{
    let _name = member.name.bytes();
    last < member.id && member.id <= 100_000
}
