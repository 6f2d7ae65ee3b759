ghost use Rattle.std.specs.Prelude.{◌≡◌, ◌<◌, ◌^◌, IfSome};
ghost use Rattle.door_workers.specs.Attending.{at_start, is_over};

use conn_server::LineEnd;

/// How far workers have come at their door.
#[derive(Drop)]
pub(crate) struct Progress {
    /// How many lines they may accept, or `None` where no number of them is enough.
    pub most: Option<u32>,
    /// How many they accepted. It stands still at its type's end.
    pub accepted: u64,
    /// How the lines ended that they handed back, in the order in which these were handed back. Where no
    /// number of lines is enough no end is kept.
    pub ends: Vec<LineEnd>,
    /// Whether no more lines come.
    pub ended: bool,
    /// Whether the door failed.
    pub failed: bool,
}

impl Progress {
    /// Nothing is done yet. No memory is taken.
    pub fn new(most: Option<u32>, ends: Vec<LineEnd>) -> Progress
        ensures { result ≡ at_start most ends }
    {
        Progress {
            most,
            accepted: 0,
            ends,
            ended: false,
            failed: false,
        }
    }

    /// Whether no line is to be accepted any more: as many were accepted as may be, or no more come, or
    /// the door failed.
    pub fn is_over(&self) -> bool
        ensures over { result ≡ is_over self.now }
        ensures small { IfSome self.now.most (λ most. most < 2 ^ 32) }
    {
        let is_full = match self.most {
            Some(most) => self.accepted >= u64::from(most),
            None => false,
        };
        is_full || self.ended || self.failed
    }
}
