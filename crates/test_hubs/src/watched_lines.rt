// A line that notes how many locks its client's desk had taken when the line was first written to.
ghost use Rattle.std.specs.Prelude.{None, refl};

use iq_outside::{Failed, Gate, Line, MemLine, Point, Sink, Source};
use std::sync::atomic::{AtomicU64, Ordering};

/// A gate that counts how often it is passed.
#[derive(Drop)]
pub struct Passed {
    pub times: AtomicU64,
}

impl Gate for Passed {
    fn at(&self, _worker: u32, _point: Point) {
        self.times.fetch_add(1, Ordering::SeqCst);
    }
}

/// A line in memory that looks at a gate at its first write. It tells nothing of its bytes.
#[derive(Drop)]
pub struct WatchedLine<'a> {
    line: MemLine,
    gate: &'a Passed,
    /// How often the gate was passed before the first write.
    passed: Option<u64>,
}

impl<'a> WatchedLine<'a> {
    pub fn new(line: MemLine, gate: &'a Passed) -> WatchedLine<'a> {
        WatchedLine {
            line,
            gate,
            passed: None,
        }
    }

    /// How often the gate was passed before the first write.
    pub fn passed(&self) -> Option<u64> {
        self.passed
    }
}

impl<'a> Source for WatchedLine<'a> {
    ghost left = { λ _. None };

    ghost faults = { λ watched. watched.line.source.faults };

    ghost write_side = { λ watched.
        record { taken = None; faults = watched.line.sink.faults } };

    fn read(&mut self, room: &mut [u8]) -> Result<usize, Failed> {
        self.line.read(room)
    }
}

impl<'a> Sink for WatchedLine<'a> {
    ghost taken = { λ _. None };

    ghost faults = { λ watched. watched.line.sink.faults };

    ghost read_side = { λ watched.
        record { left = None; given = None; faults = watched.line.source.faults } };

    fn write(&mut self, piece: &[u8]) -> Result<usize, Failed> {
        if self.passed.is_none() {
            self.passed = Some(self.gate.times.load(Ordering::SeqCst));
        }
        self.line.write(piece)
    }
}

impl<'a> Line for WatchedLine<'a> {
    ghost reading = { λ _. refl };

    ghost writing = { λ _. refl };

    ghost tells_given = { λ _ given. given };

    ghost finished = { λ watched. watched.line.finished };

    fn finish(&mut self) {
        self.line.finish();
    }
}
