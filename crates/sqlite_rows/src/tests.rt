use crate::*;
use s3_base::{ByteList, Kind};
use s3_rows::{InodeRow, KeeperFault, NameRow, ObjectRow};
use sqlite::types::ValueRef;
use sqlite::{Connection, Error, MemStore, Row};
use std::test::Fail;

/// The values as a row of a query.
fn shown(
    conn: &mut Connection<MemStore>,
    sql: &str,
    values: &[ValueRef<'_>],
) -> Result<Row, Error> {
    conn.query_row(sql, values)
}

#[test]
fn inodes_and_names(rt: HostRuntime) -> Result<(), Fail> {
    let mut conn = Connection::open_in_memory(rt.alloc())?;
    let inode = InodeRow {
        id: 2,
        kind: Kind::Link,
        mode: 0o777,
        uid: 4_294_967_295,
        gid: 7,
        mtime: 8,
        ctime: 9,
        refcount: 1,
        size: 3,
        locked: true,
    };
    let row = shown(
        &mut conn,
        "SELECT ?1, ?2, ?3, ?4, ?5, ?6, ?7, ?8, ?9",
        &inode_values(&inode),
    )?;
    let mode: i64 = row.get(1)?;
    assert_eq!(rt; mode, 0o120777);
    assert_eq!(rt; inode_of(&row)?, inode);
    let name = NameRow {
        id: 5,
        refcount: 2,
        name: ByteList::from_slice(rt.alloc(), b"a\xff")?,
    };
    let row = shown(&mut conn, "SELECT ?1, ?2, ?3", &name_values(&name))?;
    assert_eq!(rt; name_of(&row)?.name.as_slice(), b"a\xff".as_slice());
    Ok(())
}

#[test]
fn objects_and_what_is_no_row(rt: HostRuntime) -> Result<(), Fail> {
    let mut conn = Connection::open_in_memory(rt.alloc())?;
    let object = ObjectRow {
        id: 1,
        refcount: 0,
        size: None,
    };
    let row = shown(&mut conn, "SELECT ?1, ?2, ?3", &object_values(&object))?;
    let size: i64 = row.get(2)?;
    assert_eq!(rt; size, -1);
    assert_eq!(rt; object_of(&row)?, object);
    let row = shown(&mut conn, "SELECT 1, 0, 0", &[])?;
    assert!(rt; object_of(&row) == Err(KeeperFault::Failed));
    Ok(())
}
