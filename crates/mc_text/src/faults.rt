/// Why no command was read. Each place is that of the first byte of the command in the stream, from
/// 0, stopping at 2^64-1.
#[derive(Clone, Copy, Debug, PartialEq, Eq)]
pub enum FrameFault {
    /// The verb is one, and the line isn't of its form. The line is taken, and the next command is
    /// looked for behind it.
    BadLine { place: u64 },
    /// The line has more than 2,048 bytes. It lasts: the same fault is told again from then on.
    LongLine { place: u64 },
    /// The two bytes behind the block aren't CR LF. It lasts.
    BadBlock { place: u64 },
    /// The block would have more than 1,048,576 bytes. It lasts.
    BigBlock { place: u64 },
    /// Memory ran out. All is as before.
    Memory,
}
