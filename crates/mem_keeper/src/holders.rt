//! Which entries name an inode, by the inode and then by their keys.
ghost use Rattle.std.specs.Prelude.{◌≡◌, ◌==◌, ◌++◌, [], filter, All, IfOk, OnOk, IfSome};
ghost use Rattle.std.specs.List.{cons_option};
ghost use Rattle.std.specs.declared.cmp.Ordering.TheVariants.{Equal};
ghost use Rattle.s3_rows.specs.Rows.{Content, IsContent};
ghost use Rattle.s3_rows.specs.Keyed.{row_at};
ghost use Rattle.s3_rows.specs.Tables.{by_entry};
ghost use Rattle.mem_keeper.specs.Table.{rows_of, IsTable};
ghost use Rattle.mem_keeper.specs.Holders.{holder_cmp, holder_key, naming, AllHold, IsHolder};

use crate::keyed::Keyed;
use crate::table::{drop_key, hold_key, row_in};
use s3_rows::ContentRow;
use std::alloc::{AllocError, Global};
use std::collections::BTreeMap;
use std::ops::Bound;

// Where an entry is listed.
fn place_of(row: &ContentRow) -> (u64, (u64, u64))
    ensures { result ≡ holder_key row.now }
{
    (row.inode, (row.parent, row.name_id))
}

/// Lists an entry under the inode that it names.
pub(crate) fn add_holder(
    holders: &mut BTreeMap<(u64, (u64, u64)), ()>,
    row: &ContentRow,
) -> Result<(), AllocError>
    ensures kept { (r : Content) → IsHolder holders.old r → IsHolder holders.new r }
    ensures added { OnOk result (IsHolder holders.new row.now) }
{
    hold_key(holders, place_of(row))
}

/// Takes an entry from under the inode that it names.
pub(crate) fn remove_holder(holders: &mut BTreeMap<(u64, (u64, u64)), ()>, row: &ContentRow)
    ensures { (r : Content) → (holder_cmp (holder_key row.now) (holder_key r) ≡ Equal → ⊥) → IsHolder holders.old r → IsHolder holders.new r }
{
    drop_key(holders, place_of(row));
}

/// The row at a key, where it names the inode.
pub(crate) fn naming_row(
    contents: &BTreeMap<(u64, u64), Option<ContentRow>>,
    key: (u64, u64),
    inode: u64,
) -> Option<ContentRow>
    requires { IsTable by_entry contents.now.entries }
    ensures { result ≡ naming inode (row_at by_entry key (rows_of contents.now.entries)) }
{
    match row_in(contents, key) {
        Some(row) => { if row.inode == inode { Some(*row) } else { None } }
        None => None,
    }
}

// Adds a row that is found.
fn push_found(rows: &mut Vec<ContentRow>, found: Option<ContentRow>) -> Result<(), AllocError>
    ensures { OnOk result (rows.new.items ≡ rows.old.items ++ cons_option found []) }
{
    if let Some(row) = found {
        rows.push(row)?;
    }
    Ok(())
}

/// Copies of the entries that name an inode.
pub(crate) fn rows_naming(
    alloc: Global,
    holders: &BTreeMap<(u64, (u64, u64)), ()>,
    contents: &BTreeMap<(u64, u64), Option<ContentRow>>,
    inode: u64,
) -> Result<Vec<ContentRow>, AllocError>
    requires table { IsTable by_entry contents.now.entries }
    requires ranges { All IsContent (rows_of contents.now.entries) }
    requires listed { AllHold holders.now (rows_of contents.now.entries) }
    ensures { IfOk result (λ v. v.items ≡ filter (λ r. r.inode == inode) (rows_of contents.now.entries)) }
{
    let mut rows = Vec::new(alloc);
    let mut entries = holders.range((
        Bound::Included((inode, (0, 0))),
        Bound::Included((inode, (u64::MAX, u64::MAX))),
    ));
    while let Some((place, _)) = entries.next() {
        push_found(&mut rows, naming_row(contents, place.1, inode))?;
    }
    Ok(rows)
}

// Lists an entry that is there.
fn list_holder(
    holders: &mut BTreeMap<(u64, (u64, u64)), ()>,
    held: &Option<ContentRow>,
) -> Result<(), AllocError>
    ensures kept { (r : Content) → IsHolder holders.old r → IsHolder holders.new r }
    ensures listed { OnOk result (IfSome held.now (IsHolder holders.new)) }
{
    match held {
        Some(row) => add_holder(holders, row),
        None => Ok(()),
    }
}

/// Lists all entries under the inodes that they name.
pub(crate) fn list_holders(
    holders: &mut BTreeMap<(u64, (u64, u64)), ()>,
    contents: &BTreeMap<(u64, u64), Option<ContentRow>>,
) -> Result<(), AllocError>
    ensures { OnOk result (AllHold holders.new (rows_of contents.now.entries)) }
{
    let mut entries = contents.range((
        Bound::<(u64, u64)>::Unbounded,
        Bound::<(u64, u64)>::Unbounded,
    ));
    while let Some((_, held)) = entries.next() {
        list_holder(holders, held)?;
    }
    Ok(())
}

// Takes out what is listed of an entry that is gone, but not where it stands again.
fn unlist_holder(
    holders: &mut BTreeMap<(u64, (u64, u64)), ()>,
    contents: &BTreeMap<(u64, u64), Option<ContentRow>>,
    gone: &ContentRow,
)
    requires table { IsTable by_entry contents.now.entries }
    requires listed { AllHold holders.old (rows_of contents.now.entries) }
    ensures { AllHold holders.new (rows_of contents.now.entries) }
{
    match naming_row(contents, gone.key(), gone.inode) {
        Some(_) => {}
        None => remove_holder(holders, gone),
    }
}

/// Takes out what is listed of entries that are gone.
pub(crate) fn unlist_holders(
    holders: &mut BTreeMap<(u64, (u64, u64)), ()>,
    contents: &BTreeMap<(u64, u64), Option<ContentRow>>,
    gone: &[ContentRow],
)
    requires table { IsTable by_entry contents.now.entries }
    requires listed { AllHold holders.old (rows_of contents.now.entries) }
    ensures { AllHold holders.new (rows_of contents.now.entries) }
{
    for row in gone {
        unlist_holder(holders, contents, row);
    }
}
