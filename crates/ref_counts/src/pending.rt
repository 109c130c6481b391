//! Rows as the keeper would hold them after a batch that is not committed yet.
ghost use Rattle.std.specs.Prelude.{◌≡◌, option_map, IfOk};
ghost use Rattle.std.specs.Option.{option_or};
ghost use Rattle.s3_base.specs.Faults.{HasCause};
ghost use Rattle.s3_rows.specs.Tables.{IsOrdered};
ghost use Rattle.s3_rows.specs.Batches.{tables_after};
ghost use Rattle.s3_rows.specs.Latest.{last_named};
ghost use Rattle.s3_rows.specs.Selections.{inode_at, name_at, name_of_bytes, inode_block_at, block_at, object_at};
ghost use Rattle.s3_rows.specs.Told.{IfTold, has_failed};
ghost use Rattle.ref_counts.specs.Names.{StaysUnique};
ghost use Rattle.ref_counts.specs.Pending.{inode_put, name_put, link_put, block_put, object_put, params_set, with_bytes};

use s3_base::ByteList;
use s3_rows::{
    Batch, BlockRow, Change, InodeBlockRow, InodeRow, Keeper, KeeperFault, NameRow, ObjectRow,
    Params, RowId, Spot,
};
use std::alloc::AllocError;

/// The inode that a change puts.
fn inode_put(change: &Change) -> Option<InodeRow>
    ensures { result ≡ inode_put change.now }
{
    match change {
        Change::PutInode(row) => Some(*row),
        _ => None,
    }
}

/// The name that a change puts.
fn name_put(change: &Change) -> Result<Option<NameRow>, AllocError>
    ensures { IfOk result (λ r. r ≡ name_put change.now) }
{
    match change {
        Change::PutName(row) => Ok(Some(row.clone()?)),
        _ => Ok(None),
    }
}

/// The link of a place that a change puts.
fn link_put(change: &Change) -> Option<InodeBlockRow>
    ensures { result ≡ link_put change.now }
{
    match change {
        Change::PutInodeBlock(row) => Some(*row),
        _ => None,
    }
}

/// The block that a change puts.
fn block_put(change: &Change) -> Option<BlockRow>
    ensures { result ≡ block_put change.now }
{
    match change {
        Change::PutBlock(row) => Some(*row),
        _ => None,
    }
}

/// The object that a change puts.
fn object_put(change: &Change) -> Option<ObjectRow>
    ensures { result ≡ object_put change.now }
{
    match change {
        Change::PutObject(row) => Some(*row),
        _ => None,
    }
}

/// The parameters that a change sets.
fn params_set(change: &Change) -> Option<Params>
    ensures { result ≡ params_set change.now }
{
    match change {
        Change::SetParams(params) => Some(*params),
        _ => None,
    }
}

/// The name, where it has these bytes.
fn with_bytes(found: Option<NameRow>, name: &ByteList) -> Option<NameRow>
    ensures { result ≡ with_bytes name.now found }
{
    match found {
        Some(row) => {
            if row.name.as_slice().cmp(name.as_slice()).is_eq() {
                Some(row)
            } else {
                None
            }
        }
        None => None,
    }
}

/// The row of a name after the batch.
pub(crate) fn pending_name<K: Keeper>(
    keeper: &mut K,
    batch: &Batch,
    id: u64,
) -> Result<Option<NameRow>, KeeperFault>
    ensures row { IfOk result (λ r. IfTold (K.told keeper.old) (λ t. r ≡ name_at (tables_after batch.now t) id)) }
    ensures same { K.told keeper.new ≡ K.told keeper.old }
    ensures cause { HasCause (K.faults keeper.old) (K.faults keeper.new) (has_failed result) }
{
    match batch.last(RowId::Name(id)) {
        Some(change) => Ok(name_put(change)?),
        None => keeper.name(id),
    }
}

/// The id of the last name that the batch puts with these bytes, and else of the keeper's own.
fn last_name_id<K: Keeper>(
    keeper: &mut K,
    batch: &Batch,
    name: &ByteList,
) -> Result<Option<u64>, KeeperFault>
    ensures id { IfOk result (λ id. IfTold (K.told keeper.old) (λ t. id ≡ option_or (last_named name.now batch.now) (option_map (λ n. n.id) (name_of_bytes t name.now)))) }
    ensures same { K.told keeper.new ≡ K.told keeper.old }
    ensures cause { HasCause (K.faults keeper.old) (K.faults keeper.new) (has_failed result) }
{
    match batch.last_named(name.as_slice()) {
        Some(id) => Ok(Some(id)),
        None => keeper.name_id(name),
    }
}

/// The row with these bytes after the batch, while names are unique.
pub(crate) fn pending_name_of_bytes<K: Keeper>(
    keeper: &mut K,
    batch: &Batch,
    name: &ByteList,
) -> Result<Option<NameRow>, KeeperFault>
    ensures row { IfOk result (λ r. IfTold (K.told keeper.old) (λ t. IsOrdered t → StaysUnique batch.now t
        → r ≡ name_of_bytes (tables_after batch.now t) name.now)) }
    ensures same { K.told keeper.new ≡ K.told keeper.old }
    ensures cause { HasCause (K.faults keeper.old) (K.faults keeper.new) (has_failed result) }
{
    match last_name_id(keeper, batch, name)? {
        Some(id) => Ok(with_bytes(pending_name(keeper, batch, id)?, name)),
        None => Ok(None),
    }
}

/// The parameters after the batch.
pub(crate) fn pending_params<K: Keeper>(
    keeper: &mut K,
    batch: &Batch,
) -> Result<Option<Params>, KeeperFault>
    ensures row { IfOk result (λ r. IfTold (K.told keeper.old) (λ t. r ≡ (tables_after batch.now t).params)) }
    ensures same { K.told keeper.new ≡ K.told keeper.old }
    ensures cause { HasCause (K.faults keeper.old) (K.faults keeper.new) (has_failed result) }
{
    match batch.last(RowId::Params) {
        Some(change) => Ok(params_set(change)),
        None => keeper.params(),
    }
}

/// The row of an inode after the batch.
pub fn pending_inode<K: Keeper>(
    keeper: &mut K,
    batch: &Batch,
    id: u64,
) -> Result<Option<InodeRow>, KeeperFault>
    ensures row { IfOk result (λ r. IfTold (K.told keeper.old) (λ t. r ≡ inode_at (tables_after batch.now t) id)) }
    ensures same { K.told keeper.new ≡ K.told keeper.old }
    ensures cause { HasCause (K.faults keeper.old) (K.faults keeper.new) (has_failed result) }
{
    match batch.last(RowId::Inode(id)) {
        Some(change) => Ok(inode_put(change)),
        None => keeper.inode(id),
    }
}

/// The link of a place after the batch.
pub(crate) fn pending_link<K: Keeper>(
    keeper: &mut K,
    batch: &Batch,
    spot: Spot,
) -> Result<Option<InodeBlockRow>, KeeperFault>
    ensures row { IfOk result (λ r. IfTold (K.told keeper.old) (λ t. r ≡ inode_block_at (tables_after batch.now t) spot.inode spot.blockno)) }
    ensures same { K.told keeper.new ≡ K.told keeper.old }
    ensures cause { HasCause (K.faults keeper.old) (K.faults keeper.new) (has_failed result) }
{
    match batch.last(RowId::InodeBlock(spot.inode, spot.blockno)) {
        Some(change) => Ok(link_put(change)),
        None => keeper.block_at(spot.inode, spot.blockno),
    }
}

/// The row of a block after the batch.
pub(crate) fn pending_block<K: Keeper>(
    keeper: &mut K,
    batch: &Batch,
    id: u64,
) -> Result<Option<BlockRow>, KeeperFault>
    ensures row { IfOk result (λ r. IfTold (K.told keeper.old) (λ t. r ≡ block_at (tables_after batch.now t) id)) }
    ensures same { K.told keeper.new ≡ K.told keeper.old }
    ensures cause { HasCause (K.faults keeper.old) (K.faults keeper.new) (has_failed result) }
{
    match batch.last(RowId::Block(id)) {
        Some(change) => Ok(block_put(change)),
        None => keeper.block(id),
    }
}

/// The row of an object after the batch.
pub(crate) fn pending_object<K: Keeper>(
    keeper: &mut K,
    batch: &Batch,
    id: u64,
) -> Result<Option<ObjectRow>, KeeperFault>
    ensures row { IfOk result (λ r. IfTold (K.told keeper.old) (λ t. r ≡ object_at (tables_after batch.now t) id)) }
    ensures same { K.told keeper.new ≡ K.told keeper.old }
    ensures cause { HasCause (K.faults keeper.old) (K.faults keeper.new) (has_failed result) }
{
    match batch.last(RowId::Object(id)) {
        Some(change) => Ok(object_put(change)),
        None => keeper.object(id),
    }
}
