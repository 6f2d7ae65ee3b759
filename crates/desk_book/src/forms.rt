use lease_table::Mode;
use rows_model::Sid;

/// The form in which a request is made. All but the first are for requests that the book doesn't bear
/// out: they store nothing that isn't known to be right, and release nothing too early.
#[derive(Clone, Copy, Debug, PartialEq, Eq)]
pub enum Form {
    /// As it is asked for.
    AsAsked,
    /// A set with token 0. No lease has that token, so it is void.
    VoidSet,
    /// A release without the new value, which drops the key's.
    NoValue,
    /// A release that drops the key's value in place of one that shifts it.
    DropOnly,
    /// Two events: this session, whose the grant is, is ended at the store, and then the key's value is
    /// dropped and the quarantine ended. The reply is that of the second. To a raise it is Gone.
    EndDrop { session: Sid },
    /// No event. A raise is answered Shared, with the grant's own session as the holder.
    Shared,
    /// No event. A quarantine is answered Refused, by the asking session in the mode that it asked for.
    Refused { mode: Mode },
    /// No event. A commit is answered NotCommitted, with Ended.
    NotCommitted,
    /// A commit with those of its grants alone that the book holds. All of them come back.
    HeldAlone,
}
