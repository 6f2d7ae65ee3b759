//! What a desk was asked and what it replied, for contracts alone.
ghost use Rattle.std.specs.Prelude.{◌≡◌, ◌∷◌, []};
ghost use Rattle.rows_model.specs.declared.keys.Sid.{Sid};
ghost use Rattle.session_client.specs.Desks.{Began, Asked};
ghost use Rattle.session_client.specs.declared.replies.Wanted.{Wanted};
ghost use Rattle.session_client.specs.declared.replies.Wanted.TheVariants as wanted;
ghost use Rattle.session_client.specs.Belongs.{get_reply};

use http_server::Log;
use key_shard::Got;
use rows_model::{QKey, Sid};
use session_client::{Fault, Reply, Wanted};
use std::marker::Model;

/// A request that is about to be made.
pub(crate) type Request = Log<Sid, Wanted>;

/// A get that is about to be made.
#[derive(Clone, Copy)]
pub struct Look {
    pub who: Sid,
    pub key: QKey,
    pub floor: u64,
}

/// The calls that a desk answered, the latest first. It takes no memory: contracts alone see what is in it.
#[derive(Drop)]
pub(crate) struct Record {
    calls: Log<Log<Sid, bool>, Log<Log<Request, Reply>, Log<Look, Result<Got, Fault>>>>,
}

impl Model for Record {
    ghost use Rattle.std.specs.Prelude.{List, ◌++◌, flat_map, reverse};
    ghost use Rattle.session_client.specs.Desks.{Exchange};
    ghost use Rattle.bound_desk.specs.Records.{began_calls, asked_calls, looked_calls};

    ghost Value = { List Exchange };

    ghost view = { λ noted. reverse (flat_map (λ call. began_calls call.0.items
        ++ flat_map (λ made. flat_map (λ one. asked_calls one.1 one.0.items) made.0.items
        ++ looked_calls made.1.items) call.1.items) noted.calls.items) };
}

impl Record {
    /// No calls.
    pub(crate) fn new() -> Record
        ensures { result ≡ [] }
    {
        Record { calls: Log::new() }
    }

    /// With the begin of a session.
    pub(crate) fn began(&self, who: Sid, writes: bool) -> Record
        ensures { result ≡ Began writes who ∷ self.now }
    {
        let begin = Log::new().and(&who, &writes);
        Record {
            calls: self.calls.and(&begin, &Log::new()),
        }
    }

    /// With a request and its reply.
    pub(crate) fn asked(&self, request: &Request, reply: &Reply) -> Record
        ensures { (who : Sid) (wanted : Wanted) → request.now.items ≡ (who, wanted) ∷ []
            → result ≡ Asked who wanted reply.now ∷ self.now }
    {
        let call = Log::new().and(request, reply);
        let made = Log::new().and(&call, &Log::new());
        Record {
            calls: self.calls.and(&Log::new(), &made),
        }
    }

    /// With a get and its answer.
    pub(crate) fn looked(&self, look: &Look, answer: &Result<Got, Fault>) -> Record
        ensures { result ≡ Asked look.now.who (wanted.Get look.now.key look.now.floor)
            (get_reply answer.now) ∷ self.now }
    {
        let call = Log::new().and(look, answer);
        let made = Log::new().and(&Log::new(), &call);
        Record {
            calls: self.calls.and(&Log::new(), &made),
        }
    }
}
