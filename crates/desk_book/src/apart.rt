// The grants of a commit that the book doesn't hold are set apart for the commit, and put back after it.
ghost use Rattle.std.specs.Prelude.{◌≡◌, filter, IfOk, IfErr};
ghost use Rattle.desk_book.specs.Apart.{is_held, put_back, AreLeft};

use crate::books::Book;
use crate::held::{Ticket, has};
use key_shard::Grant;
use session_client::Grants;
use std::alloc::Global;
use std::marker::Model;

/// A grant that was set apart, and the place where it stood, from 0.
pub struct Other {
    pub place: usize,
    pub grant: Grant,
}

/// The grants that were set apart from those of a commit. Contracts see their list, the first that was
/// set apart in front.
pub struct Apart {
    others: Vec<Other>,
}

impl Model for Apart {
    ghost use Rattle.std.specs.Prelude.{List};
    ghost use Rattle.desk_book.specs.declared.apart.Other.{Other};

    ghost Value = { List Other };

    ghost view = { λ a. a.others.items };
}

impl Book {
    /// Whether the session holds this grant.
    fn is_held(&self, grant: &Grant) -> bool
        ensures { result ≡ is_held self.now.book grant.now }
    {
        has(self.held.as_slice(), &Ticket::of(grant))
    }

    /// Sets apart those of a commit's grants that the book doesn't hold. The others keep their order and
    /// the room of all. For want of memory all come back as they were.
    pub fn set_apart(&self, alloc: Global, grants: Grants) -> Result<(Grants, Apart), Grants>
        ensures held { IfOk result (λ parts. parts.0.items ≡ filter (is_held self.now.book) grants.items) }
        ensures room { IfOk result (λ parts. parts.0.room ≡ grants.room) }
        ensures back { IfOk result (λ parts. put_back parts.1 parts.0.items ≡ grants.items) }
        ensures left { IfOk result (λ parts. AreLeft parts.1 parts.0) }
        ensures err { IfErr result (λ back. back ≡ grants) }
    {
        let Ok(mut others) = Vec::with_capacity(alloc, grants.len()) else {
            return Err(grants);
        };
        let mut held = grants;
        let mut place = 0;
        while place < held.len() {
            if self.is_held(&held.items()[place]) {
                place += 1;
            } else {
                let grant = held.take(place);
                others.push_reserved(Other { place, grant });
            }
        }
        Ok((held, Apart { others }))
    }
}

impl Apart {
    /// Puts the grants back that were set apart from these, each at its place. There may be more room for
    /// these by now. It takes no memory.
    pub fn join(self, grants: Grants) -> Grants
        requires { AreLeft self grants }
        ensures items { result.items ≡ put_back self grants.items }
        ensures room { result.room ≡ grants.room }
    {
        let Apart { mut others } = self;
        let mut grants = grants;
        while let Some(Other { place, grant }) = others.pop() {
            grants.put_back(place, grant);
        }
        others.destroy_empty();
        grants
    }
}
