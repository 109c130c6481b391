//! Changes of a row, made of the tables and added to what the pass gives.
ghost use Rattle.std.specs.Prelude.{◌≡◌, ◌<◌, ◌≤◌, IsTrue, [], ◌∷◌, Some, length, OnOk, IfOk, IfErr};
ghost use Rattle.std.specs.List.{insert, remove};
ghost use Rattle.std.proofs.Common.{set};
ghost use Rattle.s3_rows.specs.declared.change.Change.TheVariants as changes;
ghost use Rattle.s3_rows.specs.Keyed.{put, rises, without};
ghost use Rattle.s3_rows.specs.Tables.{by_inode, by_name, by_entry};
ghost use Rattle.s3_rows.specs.Batches.{after_change};
ghost use Rattle.fsck_names.specs.Made.{changing};
ghost use Rattle.fsck_names.specs.Steps.{Takes};

use fsck_findings::Repair;
use s3_base::Sequence;
use s3_rows::{Change, ContentRow, InodeRow, NameRow, Params, Tables};
use std::alloc::{AllocError, Global};
use std::mem;

/// Puts a row at the place of its key, which is found or where it would go.
fn put_at<T: Drop>(rows: &mut Vec<T>, place: Result<usize, usize>, row: T) -> Result<(), AllocError>
    requires found { IfOk place (λ i. i < length rows.old.items) }
    requires missed { IfErr place (λ i. i ≤ length rows.old.items) }
    ensures found { OnOk result (IfOk place (λ i. rows.new.items ≡ set rows.old.items i row)) }
    ensures missed { OnOk result (IfErr place (λ i. rows.new.items ≡ insert rows.old.items i row)) }
{
    match place {
        Ok(at) => {
            rows[at] = row;
            Ok(())
        }
        Err(at) => Ok(rows.insert(at, row)?),
    }
}

/// Puts an inode in the order of the ids.
fn put_inode_row(rows: &mut Vec<InodeRow>, row: InodeRow) -> Result<(), AllocError>
    requires { IsTrue (rises by_inode rows.old.items) }
    ensures rows { OnOk result (rows.new.items ≡ put by_inode row rows.old.items) }
    ensures rising { OnOk result (IsTrue (rises by_inode rows.new.items)) }
{
    let place = rows.binary_search_by_key(&row.id, |row| row.id);
    put_at(rows, place, row)
}

/// Puts a name in the order of the ids.
fn put_name_row(rows: &mut Vec<NameRow>, row: NameRow) -> Result<(), AllocError>
    requires { IsTrue (rises by_name rows.old.items) }
    ensures rows { OnOk result (rows.new.items ≡ put by_name row rows.old.items) }
    ensures rising { OnOk result (IsTrue (rises by_name rows.new.items)) }
{
    let place = rows.binary_search_by_key(&row.id, |row| row.id);
    put_at(rows, place, row)
}

/// Puts an entry in the order of the directories, and of the ids of the names.
fn put_entry_row(rows: &mut Vec<ContentRow>, row: ContentRow) -> Result<(), AllocError>
    requires { IsTrue (rises by_entry rows.old.items) }
    ensures rows { OnOk result (rows.new.items ≡ put by_entry row rows.old.items) }
    ensures rising { OnOk result (IsTrue (rises by_entry rows.new.items)) }
{
    let place = rows.binary_search_by_key(
        &(row.parent, row.name_id),
        |row| (row.parent, row.name_id),
    );
    put_at(rows, place, row)
}

/// Puts an inode.
pub(crate) fn put_inode(
    alloc: Global,
    tables: &mut Tables,
    repair: &mut Repair,
    row: InodeRow,
) -> Result<(), AllocError>
    ensures { OnOk result (Takes (Some (changing (changes.PutInode row ∷ []))) tables.old tables.new repair.old repair.new) }
{
    repair.change(Change::PutInode(row))?;
    let mut rows = mem::replace(&mut tables.inodes, Sequence::new(alloc)).into_vec();
    put_inode_row(&mut rows, row)?;
    tables.inodes = Sequence::from(rows);
    Ok(())
}

/// Puts a name.
pub(crate) fn put_name(
    alloc: Global,
    tables: &mut Tables,
    repair: &mut Repair,
    row: NameRow,
) -> Result<(), AllocError>
    ensures { OnOk result (Takes (Some (changing (changes.PutName row ∷ []))) tables.old tables.new repair.old repair.new) }
{
    repair.change(Change::PutName(row.clone()?))?;
    let mut rows = mem::replace(&mut tables.names, Sequence::new(alloc)).into_vec();
    put_name_row(&mut rows, row)?;
    tables.names = Sequence::from(rows);
    Ok(())
}

/// Puts an entry.
pub(crate) fn put_entry(
    alloc: Global,
    tables: &mut Tables,
    repair: &mut Repair,
    row: ContentRow,
) -> Result<(), AllocError>
    ensures { OnOk result (Takes (Some (changing (changes.PutContent row ∷ []))) tables.old tables.new repair.old repair.new) }
{
    repair.change(Change::PutContent(row))?;
    let mut rows = mem::replace(&mut tables.contents, Sequence::new(alloc)).into_vec();
    put_entry_row(&mut rows, row)?;
    tables.contents = Sequence::from(rows);
    Ok(())
}

/// Sets the parameters.
pub(crate) fn set_params(
    tables: &mut Tables,
    repair: &mut Repair,
    params: Params,
) -> Result<(), AllocError>
    ensures { OnOk result (Takes (Some (changing (changes.SetParams params ∷ []))) tables.old tables.new repair.old repair.new) }
{
    repair.change(Change::SetParams(params))?;
    tables.params = params;
    Ok(())
}

/// Takes the row at the place of its key away, if one is there.
fn remove_at<T: Drop>(rows: &mut Vec<T>, place: Result<usize, usize>)
    requires { IfOk place (λ i. i < length rows.old.items) }
    ensures found { IfOk place (λ i. rows.new.items ≡ remove rows.old.items i) }
    ensures missed { IfErr place (λ i. rows.new.items ≡ rows.old.items) }
{
    if let Ok(at) = place {
        let _ = rows.remove(at);
    }
}

/// Takes an inode away.
fn delete_inode_row(rows: &mut Vec<InodeRow>, id: u64)
    requires { IsTrue (rises by_inode rows.old.items) }
    ensures rows { rows.new.items ≡ without by_inode id rows.old.items }
    ensures rising { IsTrue (rises by_inode rows.new.items) }
{
    let place = rows.binary_search_by_key(&id, |row| row.id);
    remove_at(rows, place);
}

/// Deletes an inode.
pub(crate) fn delete_inode(
    alloc: Global,
    tables: &mut Tables,
    repair: &mut Repair,
    id: u64,
) -> Result<(), AllocError>
    ensures { OnOk result (Takes (Some (changing (changes.DeleteInode id ∷ []))) tables.old tables.new repair.old repair.new) }
{
    repair.change(Change::DeleteInode(id))?;
    let mut rows = mem::replace(&mut tables.inodes, Sequence::new(alloc)).into_vec();
    delete_inode_row(&mut rows, id);
    tables.inodes = Sequence::from(rows);
    Ok(())
}
