ghost use Rattle.std.specs.Prelude.{◌≡◌};

use http_server::Log;
use std::marker::Model;

/// An address, as contracts see it: its bytes. It takes no memory, and no program can read it.
#[derive(Drop)]
pub(crate) struct Address {
    bytes: Log<u8, ()>,
}

impl Model for Address {
    ghost use Rattle.std.specs.Prelude.{ℕ, List};
    ghost use Rattle.iq_outside.specs.Outside.{firsts};

    ghost Value = { List ℕ };

    ghost view = { λ address. firsts address.bytes.items };
}

impl Address {
    /// The address that has these bytes.
    pub fn of(addr: &[u8]) -> Address
        ensures { result ≡ addr.now }
    {
        let mut bytes = Log::new();
        for byte in addr {
            bytes = bytes.and(byte, &());
        }
        Address { bytes }
    }
}
