ghost use Rattle.std.specs.Prelude.{◌≡◌};
ghost use Rattle.sqlite_tables.specs.Calls.{fault_for};

use sql_keeper::KeepFault;
use sqlite::{Error, ErrorCode};

/// What a refusal of `sqlite` is to a keeper: want of memory is told as such, and each other is a
/// failure.
pub fn fault_of(error: Error) -> KeepFault
    ensures { result ≡ fault_for error }
{
    match error {
        Error::SqliteFailure(ErrorCode::OutOfMemory) => KeepFault::Memory,
        _ => KeepFault::Failed,
    }
}
