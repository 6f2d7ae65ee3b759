use mc_text::FrameFault;

/// How a connection ended.
#[derive(Clone, Copy, PartialEq, Eq)]
pub enum LineEnd {
    /// The client said `quit`.
    Quit,
    /// The input ended, with so many bytes that are no whole command.
    Closed { left: u64 },
    /// The input was of no form, and nothing that follows can be read. The client was told so.
    Shut { fault: FrameFault },
    /// As many commands were answered as one connection may have.
    Budget,
    /// A read failed.
    ReadFault,
    /// A write failed.
    WriteFault,
    /// Memory ran out.
    Memory,
}
