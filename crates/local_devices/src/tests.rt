use crate::{DirLink, FileDisk};
use s3_base::ByteList;
use s3_devices::{Disk, Link};
use std::fs;
use std::test::Fail;

/// A store in a folder, and a disk in a file.
#[test]
fn folders_and_files_hold_bytes(rt: HostRuntime) -> Result<(), Fail> {
    let alloc = rt.alloc();
    let folder = "local_devices_test";
    if fs::exists(&rt, folder)? {
        fs::remove_dir_all(&rt, folder)?;
    }
    let mut link = DirLink::open(rt, &ByteList::from_slice(alloc, folder.as_bytes())?)?;
    let first = ByteList::from_slice(alloc, b"s3ql_data_1")?;
    let second = ByteList::from_slice(alloc, b"s3ql_data_2")?;
    link.put(&second, &first)?;
    link.put(&first, &ByteList::new(alloc))?;
    let page = link.list(&ByteList::new(alloc), 1)?;
    assert_eq!(rt; page.len(), 1);
    let rest = link.list(&first, 9)?;
    assert_eq!(rt; rest.len(), 1);
    match link.get(&second)? {
        Some(bytes) => assert!(rt; bytes == first),
        None => assert!(rt; false),
    }
    link.delete(&second)?;
    assert!(rt; link.get(&second)?.is_none());
    assert!(rt;
        link.put(&ByteList::from_slice(alloc, b"a/b")?, &first)
            .is_err()
    );
    let path = ByteList::from_slice(alloc, b"local_devices_test/.writing/disk")?;
    let mut disk = FileDisk::open(&rt, &path)?;
    disk.write_at(2, b"abc")?;
    disk.sync()?;
    assert_eq!(rt; disk.len()?, 5);
    let mut buf = [9u8; 7];
    disk.read_at(1, &mut buf)?;
    assert!(rt; buf == [0, b'a', b'b', b'c', 0, 0, 0]);
    fs::remove_dir_all(&rt, folder)?;
    Ok(())
}
