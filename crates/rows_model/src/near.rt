// The index of the links and the blocks: beside each member the links of which it is an end, and those
// whom it has blocked.
ghost use Rattle.std.specs.Prelude.{◌≡◌, ◌≤◌, ◌<◌, ◌+◌, ◌==◌, ◌≢◌, true, false, map, length, fold, All, AllPairs, IfOk, IfSome, IfNone, OnOk, vec_len, vec_capacity};
ghost use Rattle.std.specs.List.{list_any, insert, AllZip};
ghost use Rattle.rows_model.specs.Changes.{is_before, with_link, without_link, renamed};
ghost use Rattle.rows_model.specs.Near.{IsAt, NearAscend, puts, AreTwo, links_after, members_after};
ghost use Rattle.rows_model.specs.Refresh.{with_id};
ghost use Rattle.rows_model.specs.NearSteps.{IsSame, IsGrown, HasRoomAt, HasRoomAtBoth, HasRoomOf, HasRoomFor, HasBlockRoomAt, HasBlockRoomOf, HasBlockRoomFor, IsMadeAt, IsMadeAtBoth, IsBarredAt, IsMade, IsMadeAll};

use crate::changes::Change;
use crate::names::Name;
use crate::rows::{Link, Member};
use std::alloc::{AllocError, Global};

// A member's id, the links of which it is an end, by their two ids, and the ids of those whom it has
// blocked, ascending.
#[derive(Drop)]
pub(crate) struct Near {
    pub(crate) id: u32,
    pub(crate) links: Vec<Link>,
    pub(crate) blocked: Vec<u32>,
}

// A list for each member, with no links and no blocks.
pub(crate) fn no_links(alloc: Global, members: &[Member]) -> Result<Vec<Near>, AllocError>
    ensures ids { IfOk result (λ near. map (λ one. one.id) near.items
        ≡ map (λ member. member.id) members.now) }
    ensures none { IfOk result (λ near. All (λ one. length one.links.items ≡ 0) near.items) }
    ensures free { IfOk result (λ near. All (λ one. length one.blocked.items ≡ 0) near.items) }
{
    let mut near = Vec::with_capacity(alloc, members.len())?;
    for member in members {
        near.push(Near {
            id: member.id,
            links: Vec::new(alloc),
            blocked: Vec::new(alloc),
        })?;
    }
    Ok(near)
}

// The same lists once more.
pub(crate) fn copied(alloc: Global, near: &[Near]) -> Result<Vec<Near>, AllocError>
    ensures { IfOk result (λ copy. AllZip IsSame near.now copy.items) }
{
    let mut copy = Vec::with_capacity(alloc, near.len())?;
    for one in near {
        copy.push(Near {
            id: one.id,
            links: Vec::from_slice(alloc, one.links.as_slice())?,
            blocked: Vec::from_slice(alloc, one.blocked.as_slice())?,
        })?;
    }
    Ok(copy)
}

// Where the list of this member stands.
pub(crate) fn place_of(near: &[Near], id: u32) -> Option<usize>
    requires ascend { NearAscend near.now }
    ensures at { IfSome result (λ place. IsAt (λ one. one.id == id) near.now place) }
    ensures none { IfNone result (list_any (λ one. one.id == id) near.now ≡ false) }
{
    let guess = guess_of(id);
    if guess < near.len() && near[guess].id == id {
        return Some(guess);
    }
    near.binary_search_by_key(&id, |one| one.id).ok()
}

// Where the member of this id stands.
pub(crate) fn member_place(members: &[Member], id: u32) -> Option<usize>
    requires ascend { AllPairs (λ member later. member.id < later.id) members.now }
    ensures at { IfSome result (λ place. IsAt (λ member. member.id == id) members.now place) }
    ensures none { IfNone result (list_any (λ member. member.id == id) members.now ≡ false) }
{
    let guess = guess_of(id);
    if guess < members.len() && members[guess].id == id {
        return Some(guess);
    }
    members.binary_search_by_key(&id, |member| member.id).ok()
}

// Where a member stands, and its list, if no id below is missing. Most often none is.
fn guess_of(id: u32) -> usize {
    (id as usize).saturating_sub(1)
}

// Makes room for so many more links and blocks in the lists of the members for which these changes put
// some. The lists are as before, also where memory runs out.
pub(crate) fn make_room(
    near: &mut [Near],
    changes: &[Change],
    more: usize,
) -> Result<(), AllocError>
    requires ascend { NearAscend near.old }
    ensures grown { AllZip IsGrown near.old near.new }
    ensures room { OnOk result (All (HasRoomFor changes.now more) near.new) }
    ensures block_room { OnOk result (All (HasBlockRoomFor changes.now more) near.new) }
{
    let Some((change, rest)) = changes.split_first() else {
        return Ok(());
    };
    make_room_of(near, change, more)?;
    make_room(near, rest, more)
}

// Makes room for so many more links or blocks where this change puts one.
fn make_room_of(near: &mut [Near], change: &Change, more: usize) -> Result<(), AllocError>
    requires ascend { NearAscend near.old }
    ensures grown { AllZip IsGrown near.old near.new }
    ensures room { OnOk result (All (HasRoomOf change.now more) near.new) }
    ensures block_room { OnOk result (All (λ one. HasBlockRoomOf one more change.now) near.new) }
{
    match *change {
        Change::Invite { a, b } | Change::Accept { a, b } => reserve_both(near, a, b, more),
        Change::Block { a, .. } => reserve_block(near, a, more),
        Change::Reject { .. } | Change::Thaw { .. } | Change::Rename { .. } => Ok(()),
    }
}

// Makes room for so many more links in the lists of these two members.
fn reserve_both(near: &mut [Near], a: u32, b: u32, more: usize) -> Result<(), AllocError>
    requires ascend { NearAscend near.old }
    ensures grown { AllZip IsGrown near.old near.new }
    ensures room { OnOk result (All (HasRoomAtBoth a b more) near.new) }
{
    reserve(near, a, more)?;
    reserve(near, b, more)
}

// Makes room for so many more links in the list of this member.
fn reserve(near: &mut [Near], id: u32, more: usize) -> Result<(), AllocError>
    requires ascend { NearAscend near.old }
    ensures grown { AllZip IsGrown near.old near.new }
    ensures room { OnOk result (All (HasRoomAt id more) near.new) }
{
    match place_of(near, id) {
        Some(place) => near[place].links.reserve(more),
        None => Ok(()),
    }
}

// Makes room for so many more blocks in the list of this member.
fn reserve_block(near: &mut [Near], id: u32, more: usize) -> Result<(), AllocError>
    requires ascend { NearAscend near.old }
    ensures grown { AllZip IsGrown near.old near.new }
    ensures room { OnOk result (All (HasBlockRoomAt id more) near.new) }
{
    match place_of(near, id) {
        Some(place) => near[place].blocked.reserve(more),
        None => Ok(()),
    }
}

// Makes changes that apply, in turn. The lists have room for the links and the blocks that are put.
pub(crate) fn make_all(members: &mut [Member], near: &mut [Near], changes: &[Change])
    requires members_ascend { AllPairs (λ member later. member.id < later.id) members.old }
    requires ascend { NearAscend near.old }
    requires two { All AreTwo changes.now }
    requires room { All (HasRoomFor changes.now (length changes.now)) near.old }
    requires block_room { All (HasBlockRoomFor changes.now (length changes.now)) near.old }
    ensures members { members.new ≡ fold members_after members.old changes.now }
    ensures near { AllZip (IsMadeAll changes.now) near.old near.new }
{
    if let Some((change, rest)) = changes.split_first() {
        make(members, near, change);
        make_all(members, near, rest);
    }
}

// Makes a change that applies.
fn make(members: &mut [Member], near: &mut [Near], change: &Change)
    requires members_ascend { AllPairs (λ member later. member.id < later.id) members.old }
    requires ascend { NearAscend near.old }
    requires two { AreTwo change.now }
    requires room { All (HasRoomOf change.now 1) near.old }
    requires block_room { All (λ one. HasBlockRoomOf one 1 change.now) near.old }
    ensures members { members.new ≡ members_after members.old change.now }
    ensures near { AllZip (IsMade change.now) near.old near.new }
{
    match *change {
        Change::Invite { a, b }
        | Change::Accept { a, b }
        | Change::Reject { a, b }
        | Change::Thaw { a, b } => make_at_both(near, a, b, change),
        Change::Rename { a, name } => rename(members, a, name),
        Change::Block { a, b } => bar_at(near, a, b),
    }
}

// Makes a change in the lists of its two members.
fn make_at_both(near: &mut [Near], a: u32, b: u32, change: &Change)
    requires ascend { NearAscend near.old }
    requires two { a ≢ b }
    requires room { puts change.now ≡ true → All (HasRoomAtBoth a b 1) near.old }
    ensures { AllZip (IsMadeAtBoth a b change.now) near.old near.new }
{
    make_at(near, a, change);
    make_at(near, b, change);
}

// Gives the member of this id the name, if there is one.
fn rename(members: &mut [Member], id: u32, name: Name)
    requires ascend { AllPairs (λ member later. member.id < later.id) members.old }
    ensures { members.new ≡ map (renamed id name) members.old }
{
    if let Some(place) = member_place(members, id) {
        members[place].name = name;
    }
}

// Makes a change in the list of this member.
fn make_at(near: &mut [Near], id: u32, change: &Change)
    requires ascend { NearAscend near.old }
    requires room { puts change.now ≡ true → All (HasRoomAt id 1) near.old }
    ensures { AllZip (IsMadeAt id change.now) near.old near.new }
{
    if let Some(place) = place_of(near, id) {
        make_in(&mut near[place].links, change);
    }
}

// Puts the second member among those whom the first has blocked. There is room for it.
fn bar_at(near: &mut [Near], id: u32, new: u32)
    requires ascend { NearAscend near.old }
    requires room { All (HasBlockRoomAt id 1) near.old }
    ensures { AllZip (IsBarredAt id new) near.old near.new }
{
    if let Some(place) = place_of(near, id) {
        put_id(&mut near[place].blocked, new);
    }
}

// Puts the id behind those below it. There is room for it.
fn put_id(ids: &mut Vec<u32>, new: u32)
    requires room { vec_len ids.old < vec_capacity ids.old }
    ensures items { ids.new.items ≡ with_id new ids.old.items }
    ensures room { vec_capacity ids.new ≡ vec_capacity ids.old }
{
    let place = ids.iter().filter(|id| **id < new).count();
    // There is room, so it is done.
    let _ = ids.insert(place, new);
}

// Makes a change in a member's list.
fn make_in(links: &mut Vec<Link>, change: &Change)
    requires room { puts change.now ≡ true → vec_len links.old < vec_capacity links.old }
    ensures items { links.new.items ≡ links_after links.old.items change.now }
    ensures room { vec_capacity links.new ≡ vec_capacity links.old }
{
    match *change {
        Change::Invite { a, b } => put(links, Link::invitation(a, b)),
        Change::Accept { a, b } => {
            take(links, a, b);
            put(links, Link::friendship(a, b));
        }
        Change::Reject { a, b } | Change::Thaw { a, b } => take(links, a, b),
        Change::Rename { .. } | Change::Block { .. } => {}
    }
}

// Puts the link behind those that stand before it. There is room for it.
fn put(links: &mut Vec<Link>, new: Link)
    requires room { vec_len links.old < vec_capacity links.old }
    ensures items { links.new.items ≡ with_link new links.old.items }
    ensures room { vec_capacity links.new ≡ vec_capacity links.old }
{
    let place = links.iter().filter(|link| link.is_before(&new)).count();
    // There is room, so it is done.
    let _ = links.insert(place, new);
}

// Takes away the link of these two.
fn take(links: &mut Vec<Link>, a: u32, b: u32)
    ensures items { links.new.items ≡ without_link a b links.old.items }
    ensures fewer { vec_len links.new ≤ vec_len links.old }
    ensures room { vec_capacity links.new ≡ vec_capacity links.old }
{
    links.retain(|link| !link.joins(a, b));
}
