// Requests in their bare form, and the key on whose shard a request is made.
ghost use Rattle.std.specs.Prelude.{◌≡◌, ◌≢◌, IfSome, IfNone};
ghost use Rattle.key_shard.specs.Answers.{IsAtHome};
ghost use Rattle.key_shard.specs.Past.{Terms};
ghost use Rattle.session_client.specs.declared.replies.Wanted.TheVariants as wanted;
ghost use Rattle.executor.specs.OnShard.{IsFor};
ghost use Rattle.executor.specs.OnStore.{IsAtStore};
ghost use Rattle.executor.specs.Requests.{key_of};

use rows_model::QKey;
use session_client::Wanted;

/// A request in its bare form: without its value, its transaction and its list of grants. Of a grant
/// that is released, raised or renewed the key and the token are left.
#[derive(Clone, Copy, PartialEq, Eq)]
pub enum Request {
    /// The key's entry, with a stamp of at least the floor.
    Get { key: QKey, floor: u64 },
    /// The store's answer for the key.
    Ask { key: QKey },
    /// What the store would answer for the key after the transaction.
    Staged { key: QKey },
    /// To store a value under the I lease of this token.
    Set { key: QKey, token: u64, stamp: u64 },
    /// A quarantine of the key, to invalidate it.
    QaReg { key: QKey },
    /// A quarantine of the key, to refresh its value.
    QaRead { key: QKey },
    /// A quarantine of the key, to shift it by this much.
    Delta { key: QKey, by: i32 },
    /// To raise a quarantine to one that refreshes.
    Raise { key: QKey, token: u64 },
    /// To give a quarantine a new deadline.
    Renew { key: QKey, token: u64 },
    /// To commit the transaction.
    Commit,
    /// To be ended at the store.
    End,
    /// To drop the key's value and end the quarantine.
    Dar { key: QKey, token: u64 },
    /// To put a new value in the place of the key's, or drop it, and end the quarantine.
    Sar { key: QKey, token: u64, stamp: u64 },
    /// To shift the key's value and end the quarantine.
    Apply { key: QKey, token: u64, stamp: u64 },
    /// To end the quarantine and leave the key's value.
    Abort { key: QKey, token: u64 },
    /// Nothing.
    Nothing,
}

impl Request {
    ghost use Rattle.std.specs.Prelude.{◌≡◌};
    ghost use Rattle.executor.specs.Requests.{request_of};

    /// The bare form of a request. It takes no memory.
    pub fn of(wanted: &Wanted) -> Request
        ensures { result ≡ request_of wanted.now }
    {
        match wanted {
            Wanted::Get { key, floor } => Request::Get {
                key: *key,
                floor: *floor,
            },
            Wanted::Ask { key } => Request::Ask { key: *key },
            Wanted::Staged { key, txn: _ } => Request::Staged { key: *key },
            Wanted::Set {
                key,
                token,
                value: _,
                stamp,
            } => Request::Set {
                key: *key,
                token: *token,
                stamp: *stamp,
            },
            Wanted::QaReg { key } => Request::QaReg { key: *key },
            Wanted::QaRead { key } => Request::QaRead { key: *key },
            Wanted::Delta { key, by } => Request::Delta { key: *key, by: *by },
            Wanted::Commit { txn: _, grants: _ } => Request::Commit,
            Wanted::End => Request::End,
            Wanted::Dar { grant } => Request::Dar {
                key: grant.key(),
                token: grant.token(),
            },
            Wanted::Sar {
                grant,
                value: _,
                stamp,
            } => Request::Sar {
                key: grant.key(),
                token: grant.token(),
                stamp: *stamp,
            },
            Wanted::Apply { grant, stamp } => Request::Apply {
                key: grant.key(),
                token: grant.token(),
                stamp: *stamp,
            },
            Wanted::Abort { grant } => Request::Abort {
                key: grant.key(),
                token: grant.token(),
            },
            Wanted::Raise { grant } => Request::Raise {
                key: grant.key(),
                token: grant.token(),
            },
            Wanted::Renew { grant } => Request::Renew {
                key: grant.key(),
                token: grant.token(),
            },
            Wanted::Nothing => Request::Nothing,
        }
    }
}

/// The key on whose shard a request is made. There is none for a request at the store, and none for
/// nothing. It takes no memory.
pub fn key_of(request: &Wanted) -> Option<QKey>
    ensures key { result ≡ key_of request.now }
    ensures on_shard { IfSome result (λ key. (terms : Terms) → IsAtHome terms key →
        IsFor terms request.now) }
    ensures at_store { IfNone result (request.now ≢ wanted.Nothing → IsAtStore request.now) }
{
    match request {
        Wanted::Get { key, floor: _ } => Some(*key),
        Wanted::Set { key, .. } => Some(*key),
        Wanted::QaReg { key } | Wanted::QaRead { key } => Some(*key),
        Wanted::Delta { key, by: _ } => Some(*key),
        Wanted::Dar { grant } => Some(grant.key()),
        Wanted::Sar { grant, .. } => Some(grant.key()),
        Wanted::Apply { grant, stamp: _ } => Some(grant.key()),
        Wanted::Abort { grant } => Some(grant.key()),
        Wanted::Raise { grant } | Wanted::Renew { grant } => Some(grant.key()),
        Wanted::Ask { .. }
        | Wanted::Staged { .. }
        | Wanted::Commit { .. }
        | Wanted::End
        | Wanted::Nothing => None,
    }
}
