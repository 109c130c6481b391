//! Rows of files, read from the keeper, and batches that are committed.
ghost use Rattle.std.specs.Prelude.{◌≡◌, ◌≤◌, false, None, Some, OnOk, OnErr, IfOk, IfErr};
ghost use Rattle.s3_base.specs.Faults.{HasCause};
ghost use Rattle.s3_rows.specs.Ranges.{HasRanges};
ghost use Rattle.s3_rows.specs.Rows.{Parameters};
ghost use Rattle.s3_rows.specs.Selections.{inode_at};
ghost use Rattle.s3_rows.specs.Told.{IfTold, has_failed};
ghost use Rattle.op_checks.specs.Rows.{open_row_check};
ghost use Rattle.ref_counts.specs.Handles.{inode_open};
ghost use Rattle.volume_core.specs.Refusals.{has_keeper_failed, has_link_failed};
ghost use Rattle.volume_core.specs.Standing.{IsCommitted};
ghost use Rattle.volume_core.specs.Rows.{IsCheckedRow, IsFound, IsSizeRefusal, file_checks, row_of};
ghost use Rattle.volume_core.specs.declared.refusal.Refusal.TheVariants.{Worn};

use crate::refusal::Refusal;
use op_checks::{check_file, check_node, check_open, check_unlocked};
use ref_counts::Handles;
use s3_base::Errno;
use s3_rows::{Batch, InodeRow, Keeper, KeeperFault};

/// The row of a regular file that may be changed.
fn changeable(found: Option<InodeRow>) -> Result<InodeRow, Errno>
    ensures { IsCheckedRow file_checks found result }
{
    let row = check_node(found)?;
    check_file(&row)?;
    check_unlocked(&row)?;
    Ok(row)
}

/// The row of a regular file that is open.
fn readable(found: Option<InodeRow>) -> Result<InodeRow, Errno>
    ensures { IsCheckedRow open_row_check found result }
{
    check_open(found)
}

/// The row of a regular file that is not locked.
pub fn file_row<K: Keeper>(keeper: &mut K, inode: u64) -> Result<InodeRow, Refusal>
    ensures row { IfTold (K.told keeper.old) (λ t. IsFound (IsCheckedRow file_checks (inode_at t inode)) result) }
    ensures link { has_link_failed result ≡ false }
    ensures same { K.told keeper.new ≡ K.told keeper.old }
    ensures cause { HasCause (K.faults keeper.old) (K.faults keeper.new) (has_keeper_failed result) }
{
    let found = keeper.inode(inode)?;
    Ok(changeable(found)?)
}

/// The row of the file that the pass's handle has open.
pub fn open_row<K: Keeper>(
    keeper: &mut K,
    handles: &Handles,
    pass: u64,
    handle: u64,
) -> Result<InodeRow, Refusal>
    ensures row { IfTold (K.told keeper.old) (λ t. IsFound (IsCheckedRow open_row_check (row_of t (inode_open handles.now pass handle))) result) }
    ensures link { has_link_failed result ≡ false }
    ensures same { K.told keeper.new ≡ K.told keeper.old }
    ensures cause { HasCause (K.faults keeper.old) (K.faults keeper.new) (has_keeper_failed result) }
{
    let inode = handles.inode_of(pass, handle).ok_or(Errno::EBADF)?;
    let found = keeper.inode(inode)?;
    Ok(readable(found)?)
}

/// Commits a batch, if it has a change.
pub fn commit<K: Keeper>(keeper: &mut K, batch: &Batch) -> Result<(), KeeperFault>
    ensures ok { OnOk result (IsCommitted batch.now (K.told keeper.old) (K.told keeper.new)) }
    ensures err { OnErr result (K.told keeper.new ≡ K.told keeper.old) }
    ensures cause { HasCause (K.faults keeper.old) (K.faults keeper.new) (has_failed result) }
{
    if batch.as_slice().is_empty() {
        return Ok(());
    }
    keeper.commit(batch)
}

/// The size of a block in bytes. A keeper without parameters is of no file system.
pub fn block_size_of<K: Keeper>(keeper: &mut K) -> Result<u32, Refusal>
    ensures size { IfOk result (λ n. IfTold (K.told keeper.old) (λ t. (p : Parameters) × (t.params ≡ Some p) × (p.block_size ≡ n))) }
    ensures ranges { IfOk result (λ n. IfTold (K.told keeper.old) HasRanges) }
    ensures least { IfOk result (λ n. 4096 ≤ n) }
    ensures greatest { IfOk result (λ n. n ≤ 10485760) }
    ensures there { IfTold (K.told keeper.old) (λ t. IfErr result (λ refusal. refusal ≡ Worn → t.params ≡ None)) }
    ensures refused { IfErr result (λ refusal. IsSizeRefusal refusal) }
    ensures same { K.told keeper.new ≡ K.told keeper.old }
    ensures cause { HasCause (K.faults keeper.old) (K.faults keeper.new) (has_keeper_failed result) }
{
    match keeper.params()? {
        Some(params) => Ok(params.block_size),
        None => Err(Refusal::Worn),
    }
}
