//! Words for what went wrong.

use keeper_dump::DumpFault;
use metadata_backup::RestoreFault;
use mkfs_ops::MakeFault;
use s3_devices::LinkFault;
use s3_rows::KeeperFault;
use std::alloc::{AllocError, Global};

pub fn keeper_word(fault: KeeperFault) -> &'static str {
    match fault {
        KeeperFault::Failed => "keeper",
        KeeperFault::Memory => "memory",
    }
}

pub fn link_word(fault: LinkFault) -> &'static str {
    match fault {
        LinkFault::Failed => "link",
        LinkFault::Memory => "memory",
    }
}

pub fn make_word(fault: MakeFault) -> &'static str {
    match fault {
        MakeFault::Exists => "exists",
        MakeFault::Keeper => "keeper",
        MakeFault::Link => "link",
        MakeFault::Memory => "memory",
    }
}

fn dump_text(alloc: Global, fault: DumpFault) -> Result<String, AllocError> {
    match fault {
        DumpFault::Short => String::from_str(alloc, "short"),
        DumpFault::Bad(place) => format!(in alloc; "bad at {place}"),
        DumpFault::OutOfOrder(place) => format!(in alloc; "out of order at {place}"),
        DumpFault::Memory => String::from_str(alloc, "memory"),
    }
}

/// What is printed where nothing was restored.
pub fn restore_text(alloc: Global, fault: RestoreFault) -> Result<String, AllocError> {
    let word = match fault {
        RestoreFault::Mounted => "mounted",
        RestoreFault::NoFileSystem => "no file system",
        RestoreFault::NoGeneration => "no generation",
        RestoreFault::Dump(fault) => return dump_text(alloc, fault),
        RestoreFault::Keeper => "keeper",
        RestoreFault::Link => "link",
        RestoreFault::Memory => "memory",
    };
    String::from_str(alloc, word)
}
