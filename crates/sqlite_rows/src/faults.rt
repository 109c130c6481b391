//! What an error of the file means to a keeper.
ghost use Rattle.std.specs.Prelude.{◌≡◌, ◌↔◌};
ghost use Rattle.sqlite.specs.declared.error.Error.TheVariants.{SqliteFailure};
ghost use Rattle.sqlite.specs.declared.error.ErrorCode.TheVariants.{OutOfMemory};

use s3_rows::KeeperFault;
use sqlite::{Error, ErrorCode};

/// Want of memory is told from all else.
pub fn fault_of(error: Error) -> KeeperFault
    ensures { (result ≡ KeeperFault.Memory) ↔ (error ≡ SqliteFailure OutOfMemory) }
{
    match error {
        Error::SqliteFailure(ErrorCode::OutOfMemory) => KeeperFault::Memory,
        _ => KeeperFault::Failed,
    }
}
