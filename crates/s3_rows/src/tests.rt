//! A call of each function, and rows at the ends of their ranges.
use crate::{Batch, BlockRow, Change, ContentRow, Digest, InodeRow, NameRow, RowId, Spot};
use s3_base::{ByteList, Kind};
use std::test::Fail;

#[test]
fn batches(rt: HostRuntime) -> Result<(), Fail> {
    let alloc = rt.alloc();
    let mut batch = Batch::new(alloc);
    assert!(rt; batch.as_slice().is_empty());
    batch.push(Change::DeleteInode(7))?;
    batch.push(Change::PutContent(ContentRow {
        parent: 1,
        name_id: 2,
        inode: 3,
    }))?;
    assert_eq!(rt; batch.as_slice().len(), 2);
    let copy = batch.clone()?;
    assert!(rt; matches!(copy.as_slice().first(), Some(Change::DeleteInode(7))));
    assert_eq!(rt; batch.into_vec().len(), 2);
    Ok(())
}

#[test]
fn last_changes(rt: HostRuntime) -> Result<(), Fail> {
    let alloc = rt.alloc();
    let mut batch = Batch::new(alloc);
    batch.push(Change::PutName(NameRow {
        id: 1,
        refcount: 1,
        name: ByteList::from_slice(alloc, b"name")?,
    }))?;
    batch.push(Change::PutBlock(BlockRow {
        id: 2,
        digest: Digest([7; 32]),
        refcount: 1,
        size: 9,
        object: 3,
    }))?;
    batch.push(Change::DeleteName(1))?;
    assert!(rt; matches!(batch.last(RowId::Name(1)), Some(Change::DeleteName(1))));
    assert!(rt; batch.last(RowId::Inode(1)).is_none());
    assert_eq!(rt; batch.last_named(b"name"), Some(1));
    assert_eq!(rt; batch.last_hashed(&Digest([7; 32])), Some(2));
    Ok(())
}

#[test]
fn rows(rt: HostRuntime) -> Result<(), Fail> {
    let row = InodeRow {
        id: (1 << 62) - 1,
        kind: Kind::Regular,
        mode: 0o7777,
        uid: 0,
        gid: u32::MAX,
        mtime: 0,
        ctime: (1 << 62) - 1,
        refcount: 1,
        size: 1 << 50,
        locked: true,
    };
    assert!(rt; InodeRow { refcount: 0, ..row } != row);
    let bytes = ByteList::from_slice(rt.alloc(), b"name")?;
    let name = NameRow {
        id: 1,
        refcount: 1,
        name: bytes,
    };
    assert_eq!(rt; name.clone()?.name.as_slice(), b"name".as_slice());
    assert!(rt; Digest([0; 32]) < Digest([1; 32]));
    assert!(rt;
        Spot {
            inode: 1,
            blockno: 9
        } < Spot {
            inode: 2,
            blockno: 0
        }
    );
    Ok(())
}
