//! Plans of Open, Release and Leave.
ghost use Rattle.std.specs.Prelude.{◌≡◌, ◌<◌, ◌^◌, ◌++◌, ◌==◌, ◌||◌, ℕ, [], ◌∷◌, nat_le, not, IsTrue, IfOk, OnOk};
ghost use Rattle.s3_base.specs.Errors.{enospc};
ghost use Rattle.s3_base.specs.Faults.{HasCause};
ghost use Rattle.op_frames.specs.declared.operation.Op.TheVariants as ops;
ghost use Rattle.op_frames.specs.declared.reply.Reply.TheVariants as replies;
ghost use Rattle.s3_rows.specs.Rows.{IsId};
ghost use Rattle.s3_rows.specs.Tables.{Tables, IsOrdered};
ghost use Rattle.s3_rows.specs.Batches.{tables_after};
ghost use Rattle.s3_rows.specs.Selections.{inode_at};
ghost use Rattle.s3_rows.specs.Told.{IfTold, has_failed};
ghost use Rattle.s3_rows.specs.Validity.{IsValid, HasUniqueNames};
ghost use Rattle.plain_tree.specs.Tree.{Tree};
ghost use Rattle.plain_tree.specs.WellFormed.{IsWellFormed};
ghost use Rattle.plain_tree.specs.Checks.{fails_with, first_failure};
ghost use Rattle.tree_rows.specs.Attrs.{attr_of_row};
ghost use Rattle.tree_rows.specs.Shapes.{Represents};
ghost use Rattle.op_checks.specs.Checks.{Checks};
ghost use Rattle.op_checks.specs.Rows.{row_check, file_row_check};
ghost use Rattle.ref_counts.specs.Handles.{HasHandles, closed, is_held};
ghost use Rattle.ref_counts.specs.Plans.{IsPlanOf, HasFitReply, is_fit};
ghost use Rattle.ref_counts.specs.Answers.{IsReplyOf};
ghost use Rattle.ref_counts.specs.Links.{places_dropped, places_of};
ghost use Rattle.ref_counts.specs.Removals.{removals};
ghost use Rattle.row_steps.specs.RowChanges.{settling};
ghost use Rattle.inode_ops.specs.Nameless.{nameless, nameless_dropped, nameless_places};

use crate::answers::done;
use op_checks::{check_file, check_hand, check_node, check_open};
use op_frames::Reply;
use ref_counts::{Handles, Plan, answer, attr_of, drop_file, drop_gone_links, drop_links};
use s3_base::Errno;
use s3_rows::{Batch, InodeRow, Keeper, KeeperFault};
use std::alloc::Global;

/// The next handle, and the attributes of a regular file.
fn opened_reply(found: Option<InodeRow>, handles: &Handles) -> Result<Reply, Errno>
    ensures check { Checks result (first_failure (row_check found ∷ file_row_check found ∷ fails_with enospc (nat_le (2 ^ 62) handles.now.next) ∷ [])) }
    ensures reply { IfOk result (IsReplyOf found (λ r. replies.Opened handles.now.next (attr_of_row r))) }
    ensures fit { IfOk result (λ reply. IsTrue (is_fit reply)) }
{
    let row = check_node(found)?;
    check_file(&row)?;
    check_hand(handles.is_full())?;
    Ok(Reply::Opened {
        handle: handles.next(),
        attr: attr_of(&row),
    })
}

/// A regular file is opened under the next number.
pub fn open_of(alloc: Global, found: Option<InodeRow>, handles: &Handles) -> Plan
    ensures plan { (t : Tables) (whole : Tree) (pass x now : ℕ) → IsValid t → Represents t whole → HasHandles handles.now whole → found ≡ inode_at t x → IsPlanOf t whole pass (ops.Open x) now result }
    ensures fit { HasFitReply result }
{
    answer(alloc, opened_reply(found, handles))
}

// ---- handles that go

/// An entry names the file, or a handle is open on it beside the one of this number.
fn is_kept(row: &InodeRow, handles: &Handles, number: u64) -> bool
    ensures { result ≡ (not (row.now.refcount == 0) || is_held (closed number handles.now) row.now.id) }
{
    row.refcount != 0 || handles.is_held_beside(number, row.id)
}

/// The batch by which an inode goes, after its places, unless something keeps it.
fn settle<K: Keeper>(
    alloc: Global,
    keeper: &mut K,
    kept: bool,
    inode: u64,
) -> Result<Batch, KeeperFault>
    requires { IsId inode }
    ensures batch { IfOk result (λ b. IfTold (K.told keeper.old) (λ t. IsOrdered t → b ≡ settling kept t inode)) }
    ensures same { K.told keeper.new ≡ K.told keeper.old }
    ensures cause { HasCause (K.faults keeper.old) (K.faults keeper.new) (has_failed result) }
{
    let mut batch = drop_gone_links(alloc, keeper, kept, inode)?;
    if kept {
        return Ok(batch);
    }
    drop_file(keeper, &mut batch, inode)?;
    Ok(batch)
}

/// A handle that the pass has open is closed; its file goes with it where nothing else keeps it.
pub fn release<K: Keeper>(
    alloc: Global,
    keeper: &mut K,
    handles: &Handles,
    pass: u64,
    number: u64,
) -> Result<Plan, KeeperFault>
    ensures plan { IfOk result (λ p. IfTold (K.told keeper.old) (λ t. IsValid t → HasUniqueNames t → t.slots ≡ []
        → (whole : Tree) (now : ℕ) → Represents t whole → IsWellFormed whole → HasHandles handles.now whole → IsPlanOf t whole pass (ops.Release number) now p)) }
    ensures same { K.told keeper.new ≡ K.told keeper.old }
    ensures cause { HasCause (K.faults keeper.old) (K.faults keeper.new) (has_failed result) }
    ensures fit { IfOk result HasFitReply }
{
    let Some(inode) = handles.inode_of(pass, number) else {
        return Ok(Plan::Refuse(Errno::EBADF));
    };
    let found = keeper.inode(inode)?;
    match check_open(found) {
        Ok(row) => {
            let kept = is_kept(&row, handles, number);
            let batch = settle(alloc, keeper, kept, row.id)?;
            Ok(done(alloc, batch))
        }
        Err(errno) => Ok(Plan::Refuse(errno)),
    }
}

/// Adds the changes by which the places of an inode name no block any more, where no entry names it.
fn drop_nameless_links<K: Keeper>(
    keeper: &mut K,
    batch: &mut Batch,
    inode: u64,
) -> Result<(), KeeperFault>
    ensures dropped { OnOk result (IfTold (K.told keeper.old) (λ t. IsOrdered t → batch.new ≡ batch.old ++ places_dropped (nameless_places t inode) (tables_after batch.old t))) }
    ensures same { K.told keeper.new ≡ K.told keeper.old }
    ensures cause { HasCause (K.faults keeper.old) (K.faults keeper.new) (has_failed result) }
{
    let Some(row) = keeper.inode(inode)? else {
        return Ok(());
    };
    if row.refcount != 0 {
        return Ok(());
    }
    drop_links(keeper, batch, row.id, 0)
}

/// The batch by which the places of those of the inodes name no block any more that no entry names.
fn drop_all_nameless_links<K: Keeper>(
    alloc: Global,
    keeper: &mut K,
    inodes: &[u64],
) -> Result<Batch, KeeperFault>
    ensures batch { IfOk result (λ b. IfTold (K.told keeper.old) (λ t. IsOrdered t → b ≡ places_dropped (places_of t (nameless t inodes.now)) t)) }
    ensures same { K.told keeper.new ≡ K.told keeper.old }
    ensures cause { HasCause (K.faults keeper.old) (K.faults keeper.new) (has_failed result) }
{
    let mut batch = Batch::new(alloc);
    for inode in inodes {
        drop_nameless_links(keeper, &mut batch, *inode)?;
    }
    Ok(batch)
}

/// Adds the changes by which an inode goes, where no entry names it.
fn drop_nameless<K: Keeper>(
    keeper: &mut K,
    batch: &mut Batch,
    inode: u64,
) -> Result<(), KeeperFault>
    ensures dropped { OnOk result (IfTold (K.told keeper.old) (λ t. IsOrdered t → batch.new ≡ batch.old ++ nameless_dropped t inode (tables_after batch.old t))) }
    ensures same { K.told keeper.new ≡ K.told keeper.old }
    ensures cause { HasCause (K.faults keeper.old) (K.faults keeper.new) (has_failed result) }
{
    let Some(row) = keeper.inode(inode)? else {
        return Ok(());
    };
    if row.refcount != 0 {
        return Ok(());
    }
    drop_file(keeper, batch, row.id)
}

/// Adds the changes by which those of the inodes go that no entry names.
fn drop_all_nameless<K: Keeper>(
    keeper: &mut K,
    batch: &mut Batch,
    inodes: &[u64],
) -> Result<(), KeeperFault>
    ensures dropped { OnOk result (IfTold (K.told keeper.old) (λ t. IsOrdered t → batch.new ≡ batch.old ++ removals t (nameless t inodes.now) (tables_after batch.old t))) }
    ensures same { K.told keeper.new ≡ K.told keeper.old }
    ensures cause { HasCause (K.faults keeper.old) (K.faults keeper.new) (has_failed result) }
{
    for inode in inodes {
        drop_nameless(keeper, batch, *inode)?;
    }
    Ok(())
}

/// All handles of the pass are closed; the files go with them that nothing else keeps.
pub fn leave<K: Keeper>(
    alloc: Global,
    keeper: &mut K,
    handles: &Handles,
    pass: u64,
) -> Result<Plan, KeeperFault>
    ensures plan { IfOk result (λ p. IfTold (K.told keeper.old) (λ t. IsValid t → HasUniqueNames t → t.slots ≡ []
        → (whole : Tree) (now : ℕ) → Represents t whole → IsWellFormed whole → HasHandles handles.now whole → IsPlanOf t whole pass ops.Leave now p)) }
    ensures same { K.told keeper.new ≡ K.told keeper.old }
    ensures cause { HasCause (K.faults keeper.old) (K.faults keeper.new) (has_failed result) }
    ensures fit { IfOk result HasFitReply }
{
    let held = handles.held_alone(alloc, pass)?;
    let mut batch = drop_all_nameless_links(alloc, keeper, held.as_slice())?;
    drop_all_nameless(keeper, &mut batch, held.as_slice())?;
    Ok(done(alloc, batch))
}
