/// A point that a worker passes.
#[derive(Clone, Copy, Debug, PartialEq, Eq)]
pub enum Point {
    /// It has quarantined all keys of a transaction, and is about to ask for the commit. It holds no
    /// lock.
    Quarantined,
    /// A session of its has come to its outcome. It holds no lock.
    Answered,
    /// It holds the lock of this shard.
    Inside { shard: u32 },
    /// It holds the lock of the store.
    AtStore,
}

/// Is told of each point that a worker passes, and may make it wait there.
pub trait Gate: Sync {
    /// This worker is at this point. It answers nothing.
    fn at(&self, worker: u32, point: Point);
}

/// A gate that lets everyone pass at once.
#[derive(Clone, Copy)]
pub struct OpenGate;

impl Gate for OpenGate {
    fn at(&self, _worker: u32, _point: Point) {}
}
