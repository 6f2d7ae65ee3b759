use rows_model::{QKey, Sid};

/// A session and a key: one that was granted a quarantine there, or that committed there.
#[derive(Clone, Copy, PartialEq, Eq, PartialOrd, Ord)]
pub struct Hold {
    pub sid: Sid,
    pub key: QKey,
}
