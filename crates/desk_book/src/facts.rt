use rows_model::{QKey, Sid, Txn};

/// The session that a desk has at present, and whether it was begun for writing.
#[derive(Clone, Copy)]
pub struct Present {
    pub sid: Sid,
    pub writes: bool,
}

/// The lease that a session was given last: on which key, and by which token.
#[derive(Clone, Copy)]
pub struct Leased {
    pub key: QKey,
    pub token: u64,
}

/// The commit of a session: its number, from 1, and the transaction.
#[derive(Drop)]
pub struct Committed {
    pub number: u64,
    pub txn: Txn,
}
