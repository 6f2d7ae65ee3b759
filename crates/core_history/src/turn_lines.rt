ghost use Rattle.std.specs.Prelude.{◌≡◌};
ghost use Rattle.core_history.specs.TurnLines.{line_in, fault_in};

/// What a turn prints.
#[derive(Drop)]
pub struct TurnLine {
    pub(crate) line: Vec<u8>,
    pub(crate) fault: bool,
}

impl TurnLine {
    /// The turn's line, with its line end.
    pub fn line(&self) -> &[u8]
        ensures { result.now ≡ line_in self.now }
    {
        self.line.as_slice()
    }

    /// Whether the line says FAULT: the store's keeper failed in the turn.
    pub fn fault(&self) -> bool
        ensures { result ≡ fault_in self.now }
    {
        self.fault
    }
}
