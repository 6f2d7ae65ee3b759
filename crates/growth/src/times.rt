use key_shard::ShardFault;
use rows_model::{ApplyFault, Memory, TxnFault};
use std::time::CpuClock;
use std::{fmt, io};

/// Memory ran out, the clock or the output failed, or a request was answered otherwise than it must be.
#[derive(Clone, Copy)]
pub struct Unmeasured;

impl From<Memory> for Unmeasured {
    fn from(_memory: Memory) -> Unmeasured {
        Unmeasured
    }
}

impl From<ShardFault> for Unmeasured {
    fn from(_fault: ShardFault) -> Unmeasured {
        Unmeasured
    }
}

impl From<TxnFault> for Unmeasured {
    fn from(_fault: TxnFault) -> Unmeasured {
        Unmeasured
    }
}

impl From<ApplyFault> for Unmeasured {
    fn from(_fault: ApplyFault) -> Unmeasured {
        Unmeasured
    }
}

impl From<io::Error> for Unmeasured {
    fn from(_error: io::Error) -> Unmeasured {
        Unmeasured
    }
}

/// How many times one time is another, which is printed with two places behind the point.
#[derive(Clone, Copy)]
pub struct Ratio {
    hundredths: u64,
}

impl Ratio {
    /// So many times the one to the other.
    pub fn of(times: u32, one: u64, other: u64) -> Ratio {
        let hundredths = one.saturating_mul(u64::from(times)).saturating_mul(100);
        Ratio {
            hundredths: hundredths / other.max(1),
        }
    }
}

impl fmt::Display for Ratio {
    fn fmt<W: fmt::Write>(&self, f: &mut fmt::Formatter<W>) -> fmt::Result {
        write!(f, "{}.{:02}", self.hundredths / 100, self.hundredths % 100)
    }
}

/// The processor time that the process has used, in nanoseconds.
pub fn used<C: CpuClock>(rt: &C) -> io::Result<u64> {
    let used = rt.process_cpu_time()?;
    Ok(
        used.as_secs()
            .saturating_mul(1_000_000_000)
            .saturating_add(u64::from(used.subsec_nanos())),
    )
}
