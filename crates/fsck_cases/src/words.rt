//! Words for what went wrong.

use fsck_run::FsckFault;
use s3_devices::LinkFault;
use s3_rows::KeeperFault;
use std::alloc::{AllocError, Global};

pub fn keeper_word(fault: KeeperFault) -> &'static str {
    match fault {
        KeeperFault::Failed => "keeper",
        KeeperFault::Memory => "memory",
    }
}

pub fn link_word(fault: LinkFault) -> &'static str {
    match fault {
        LinkFault::Failed => "link",
        LinkFault::Memory => "memory",
    }
}

/// What is printed where a check was not made to its end.
pub fn fsck_text(alloc: Global, fault: FsckFault) -> Result<String, AllocError> {
    let word = match fault {
        FsckFault::NoFileSystem => "no file system",
        FsckFault::Newer { store, keeper } => {
            return format!(in alloc; "store {store} keeper {keeper}");
        }
        FsckFault::Slots(slot) => return format!(in alloc; "slot {slot}"),
        FsckFault::Worn => "worn",
        FsckFault::Keeper => "keeper",
        FsckFault::Link => "link",
        FsckFault::Memory => "memory",
    };
    String::from_str(alloc, word)
}
