use crate::MemDisk;
use s3_base::NumberList;
use s3_devices::{Disk, DiskFault};
use std::test::Fail;

/// Bytes past the end are zeros, a gap is filled with them, and a call fails.
#[test]
fn holds_bytes(rt: HostRuntime) -> Result<(), Fail> {
    let alloc = rt.alloc();
    let fails = NumberList::from_slice(alloc, &[2])?;
    let mut disk = MemDisk::with_fails(alloc, fails);
    disk.write_at(2, b"abc")?;
    let mut buf = [9; 5];
    disk.read_at(1, &mut buf)?;
    assert!(rt; buf == [0, b'a', b'b', b'c', 0]);
    assert!(rt; disk.sync() == Err(DiskFault::Failed));
    disk.sync()?;
    assert_eq!(rt; disk.len()?, 5);
    Ok(())
}

#[test]
fn begins_empty(rt: HostRuntime) -> Result<(), Fail> {
    let mut disk = MemDisk::new(rt.alloc());
    assert_eq!(rt; disk.len()?, 0);
    Ok(())
}
