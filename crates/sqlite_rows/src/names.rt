//! Names, and the rows that hold them.
ghost use Rattle.std.specs.Prelude.{◌≡◌, IfOk, map};
ghost use Rattle.sqlite_value.specs.Value.{owned};
ghost use Rattle.s3_rows.specs.Rows.{Name, Content, Target, Attr, IsName, IsContent, IsTarget, IsAttr};
ghost use Rattle.sqlite_rows.specs.Values.{IsNameRow, IsContentRow, IsTargetRow, IsAttrRow};

use crate::fields::{bytes_in, check_width, count_in, id_in, text_in};
use s3_rows::{AttrRow, ContentRow, KeeperFault, NameRow, TargetRow};
use sqlite::Row;
use sqlite_value::value::ValueRef;

/// The longest name, in bytes.
const MAX_NAME: usize = 255;

/// The longest target of a symbolic link, in bytes.
const MAX_TARGET: usize = 4095;

/// The longest value of an attribute, in bytes.
const MAX_VALUE: usize = 65_536;

pub fn name_values<'a>(row: &'a NameRow) -> [ValueRef<'a>; 3]
    ensures { IsNameRow (map owned result) row.now }
{
    [
        ValueRef::Int(row.id as i64),
        ValueRef::Int(row.refcount as i64),
        ValueRef::Blob(row.name.as_slice()),
    ]
}

pub fn name_of(row: &Row) -> Result<NameRow, KeeperFault>
    ensures read { IfOk result (IsNameRow row.now) }
    ensures refused { result ≡ Err KeeperFault.Failed → (r : Name) → IsName r → IsNameRow row.now r → ⊥ }
{
    check_width(row, 3)?;
    Ok(NameRow {
        id: id_in(row, 0)?,
        refcount: count_in(row, 1)?,
        name: text_in(row, 2, MAX_NAME)?,
    })
}

pub fn content_values(row: &ContentRow) -> [ValueRef<'static>; 3]
    ensures { IsContentRow (map owned result) row.now }
{
    [
        ValueRef::Int(row.parent as i64),
        ValueRef::Int(row.name_id as i64),
        ValueRef::Int(row.inode as i64),
    ]
}

pub fn content_of(row: &Row) -> Result<ContentRow, KeeperFault>
    ensures read { IfOk result (IsContentRow row.now) }
    ensures refused { result ≡ Err KeeperFault.Failed → (r : Content) → IsContent r → IsContentRow row.now r → ⊥ }
{
    check_width(row, 3)?;
    Ok(ContentRow {
        parent: id_in(row, 0)?,
        name_id: id_in(row, 1)?,
        inode: id_in(row, 2)?,
    })
}

pub fn target_values<'a>(row: &'a TargetRow) -> [ValueRef<'a>; 2]
    ensures { IsTargetRow (map owned result) row.now }
{
    [
        ValueRef::Int(row.inode as i64),
        ValueRef::Blob(row.target.as_slice()),
    ]
}

pub fn target_of(row: &Row) -> Result<TargetRow, KeeperFault>
    ensures read { IfOk result (IsTargetRow row.now) }
    ensures refused { result ≡ Err KeeperFault.Failed → (r : Target) → IsTarget r → IsTargetRow row.now r → ⊥ }
{
    check_width(row, 2)?;
    Ok(TargetRow {
        inode: id_in(row, 0)?,
        target: text_in(row, 1, MAX_TARGET)?,
    })
}

pub fn attr_values<'a>(row: &'a AttrRow) -> [ValueRef<'a>; 3]
    ensures { IsAttrRow (map owned result) row.now }
{
    [
        ValueRef::Int(row.inode as i64),
        ValueRef::Int(row.name_id as i64),
        ValueRef::Blob(row.value.as_slice()),
    ]
}

pub fn attr_of(row: &Row) -> Result<AttrRow, KeeperFault>
    ensures read { IfOk result (IsAttrRow row.now) }
    ensures refused { result ≡ Err KeeperFault.Failed → (r : Attr) → IsAttr r → IsAttrRow row.now r → ⊥ }
{
    check_width(row, 3)?;
    Ok(AttrRow {
        inode: id_in(row, 0)?,
        name_id: id_in(row, 1)?,
        value: bytes_in(row, 2, MAX_VALUE)?,
    })
}
