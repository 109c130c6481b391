//! The operations that are built, each by its plan.
ghost use Rattle.std.specs.Prelude.{◌≡◌, ◌<◌, ◌^◌, ℕ, false, Option, None, Err, IsTrue, IfOk};
ghost use Rattle.sha2.specs.Sha256.{sha256};
ghost use Rattle.s3_devices.specs.Objects.{Objects};
ghost use Rattle.s3_base.specs.Faults.{HasCause};
ghost use Rattle.op_frames.specs.declared.operation.Op.TheVariants as ops;
ghost use Rattle.op_frames.specs.Operations.{is_op};
ghost use Rattle.plain_tree.specs.Tree.{Tree};
ghost use Rattle.dir_ops.specs.Plans as dir_plans;
ghost use Rattle.immutable_trees.specs.Plans as tree_plans;
ghost use Rattle.inode_ops.specs.Plans as inode_plans;
ghost use Rattle.ref_counts.specs.Plans.{HasFitReply, is_fit};
ghost use Rattle.core_rules.specs.Built.{is_built};
ghost use Rattle.volume_core.specs.Plans.{IsTaken, IsOpening, IsFulfilled, inode_opened, inode_of_plan, closed_by};
ghost use Rattle.volume_core.specs.Refusals.{IsOutcome, has_keeper_failed, has_link_failed};
ghost use Rattle.volume_core.specs.Standing.{StandsFor};

use crate::RowCore;
use crate::refusal::Refusal;
use crate::rows::commit;
use byte_steps::{operations_on_names_keep_bytes, shared_blocks_keep_bytes};
use op_frames::{Op, Reply};
use ref_counts::{Handle, Handles, Plan};
use s3_base::{ByteList, Errno};
use s3_devices::Link;
use s3_rows::Keeper;
use tree_copy::{copied_trees_keep_bytes, copy_batch};

/// Commits what a plan says, and gives its reply.
fn take<K: Keeper>(keeper: &mut K, plan: Plan) -> Result<Reply, Refusal>
    requires fit { HasFitReply plan }
    ensures taken { IsTaken plan (K.told keeper.old) (K.told keeper.new) result }
    ensures untold { K.told keeper.old ≡ None → K.told keeper.new ≡ None }
    ensures cause { HasCause (K.faults keeper.old) (K.faults keeper.new) (has_keeper_failed result) }
    ensures link { has_link_failed result ≡ false }
    ensures fit { IfOk result (λ reply. IsTrue (is_fit reply)) }
{
    match plan {
        Plan::Refuse(errno) => Err(Refusal::Refused(errno)),
        Plan::Worn => Err(Refusal::Worn),
        Plan::Commit { batch, reply, .. } => {
            commit(keeper, &batch)?;
            Ok(reply)
        }
    }
}

/// The inode that a reply says is opened.
fn opened_inode(reply: &Reply) -> Option<u64>
    ensures { result ≡ inode_opened reply.now }
{
    match reply {
        Reply::Opened { attr, .. } => Some(attr.inode),
        _ => None,
    }
}

/// The inode that a plan opens.
fn opened_by(plan: &Plan) -> Option<u64>
    ensures { result ≡ inode_of_plan plan.now }
{
    match plan {
        Plan::Commit { reply, .. } => opened_inode(reply),
        _ => None,
    }
}

/// Commits what a plan says, and opens its file for the pass. The handle is made first, and goes again where the batch is not
/// committed.
fn open_as_planned<K: Keeper>(
    keeper: &mut K,
    handles: &mut Handles,
    pass: u64,
    plan: Plan,
) -> Result<Reply, Refusal>
    requires fit { HasFitReply plan }
    ensures opening { IsOpening plan pass (K.told keeper.old) (K.told keeper.new) handles.old handles.new result }
    ensures cause { HasCause (K.faults keeper.old) (K.faults keeper.new) (has_keeper_failed result) }
    ensures link { has_link_failed result ≡ false }
    ensures untold { K.told keeper.old ≡ None → K.told keeper.new ≡ None }
    ensures fit { IfOk result (λ reply. IsTrue (is_fit reply)) }
{
    let Some(inode) = opened_by(&plan) else {
        return take(keeper, plan);
    };
    if handles.is_full() {
        return Err(Refusal::Refused(Errno::ENOSPC));
    }
    handles.open(Handle { inode, pass })?;
    let taken = take(keeper, plan);
    if taken.is_err() {
        handles.take_back();
    }
    taken
}

/// Closes the handles that an operation closes.
fn close(handles: &mut Handles, pass: u64, op: &Op)
    ensures { handles.new ≡ closed_by pass op.now handles.old }
{
    match op {
        Op::Release { handle } => handles.close(*handle),
        Op::Leave => handles.close_all(pass),
        _ => {}
    }
}

/// Commits what a plan says, and opens and closes handles as the operation does.
fn fulfil<K: Keeper>(
    keeper: &mut K,
    handles: &mut Handles,
    pass: u64,
    op: &Op,
    plan: Plan,
) -> Result<Reply, Refusal>
    requires fit { HasFitReply plan }
    ensures fulfilled { IsFulfilled plan pass op.now (K.told keeper.old) (K.told keeper.new) handles.old handles.new result }
    ensures cause { HasCause (K.faults keeper.old) (K.faults keeper.new) (has_keeper_failed result) }
    ensures link { has_link_failed result ≡ false }
    ensures untold { K.told keeper.old ≡ None → K.told keeper.new ≡ None }
    ensures fit { IfOk result (λ reply. IsTrue (is_fit reply)) }
{
    let reply = open_as_planned(keeper, handles, pass, plan)?;
    close(handles, pass, op);
    Ok(reply)
}

impl<K: Keeper> RowCore<K> {
    /// Carries out an operation of a pass, or says why not; then the tree is as before.
    pub(crate) fn carry_out<L: Link>(
        &mut self,
        link: &mut L,
        pass: u64,
        op: &Op,
        now: u64,
    ) -> Result<Reply, Refusal>
        requires op { IsTrue (is_op op.now) }
        requires now { now < 2 ^ 62 }
        ensures built { IsTrue (is_built op.now) → (whole : Tree) → StandsFor K.told self.old whole
            → IsOutcome K.told self.old self.new sha256 (L.told link.old) (L.told link.new) whole pass op.now now result }
        ensures unbuilt { is_built op.now ≡ false → (result ≡ Err (Refusal.Refused (record { 0 = 38 }))) × (self.new ≡ self.old) × (L.told link.new ≡ L.told link.old) }
        ensures keeper { HasCause (K.faults self.old.keeper) (K.faults self.new.keeper) (has_keeper_failed result) }
        ensures link { HasCause (L.faults link.old) (L.faults link.new) (has_link_failed result) }
        ensures untold { K.told self.old.keeper ≡ None → K.told self.new.keeper ≡ None }
        ensures fit { IfOk result (λ reply. IsTrue (is_fit reply)) }
    {
        match op {
            Op::Getattr { .. }
            | Op::Chmod { .. }
            | Op::Chown { .. }
            | Op::Utimes { .. }
            | Op::Symlink { .. }
            | Op::Readlink { .. }
            | Op::Open { .. }
            | Op::Release { .. }
            | Op::Statfs
            | Op::Setxattr { .. }
            | Op::Getxattr { .. }
            | Op::Listxattr { .. }
            | Op::Removexattr { .. }
            | Op::Leave => self.on_inodes(pass, op, now),
            Op::Lookup { .. }
            | Op::Mkdir { .. }
            | Op::Create { .. }
            | Op::Unlink { .. }
            | Op::Rmdir { .. }
            | Op::Rename { .. }
            | Op::Link { .. }
            | Op::Readdir { .. } => { self.on_entries(pass, op, now) }
            Op::Truncate { inode, size } => self.truncate(link, *inode, *size, now),
            Op::Read {
                handle,
                offset,
                length,
            } => self.read(link, pass, *handle, *offset, *length),
            Op::Write {
                handle,
                offset,
                bytes,
            } => self.write(link, pass, *handle, *offset, bytes, now),
            Op::Fsync { handle } => self.fsync(pass, *handle),
            Op::CopyTree {
                source,
                parent,
                name,
            } => self.copy_tree(*source, *parent, name, now),
            Op::LockTree { .. } | Op::RemoveTree { .. } => self.on_trees(pass, op, now),
            _ => Err(Refusal::Refused(Errno::ENOSYS)),
        }
    }

    /// Carries out an operation on inodes or handles, by its plan.
    fn on_inodes(&mut self, pass: u64, op: &Op, now: u64) -> Result<Reply, Refusal>
        requires op { IsTrue (inode_plans.is_planned op.now) }
        requires now { now < 2 ^ 62 }
        ensures outcome { (whole : Tree) (objects : Option Objects) → StandsFor K.told self.old whole → IsOutcome K.told self.old self.new sha256 objects objects whole pass op.now now result }
        ensures keeper { HasCause (K.faults self.old.keeper) (K.faults self.new.keeper) (has_keeper_failed result) }
        ensures link { has_link_failed result ≡ false }
        ensures untold { K.told self.old.keeper ≡ None → K.told self.new.keeper ≡ None }
        ensures fit { IfOk result (λ reply. IsTrue (is_fit reply)) }
    {
        operations_on_names_keep_bytes();
        shared_blocks_keep_bytes();
        let plan = inode_ops::plan(self.alloc, &mut self.keeper, &self.handles, pass, op, now)?;
        fulfil(&mut self.keeper, &mut self.handles, pass, op, plan)
    }

    /// Carries out an operation on entries, by its plan.
    fn on_entries(&mut self, pass: u64, op: &Op, now: u64) -> Result<Reply, Refusal>
        requires op { IsTrue (dir_plans.is_planned op.now) }
        requires now { now < 2 ^ 62 }
        ensures outcome { (whole : Tree) (objects : Option Objects) → StandsFor K.told self.old whole → IsOutcome K.told self.old self.new sha256 objects objects whole pass op.now now result }
        ensures keeper { HasCause (K.faults self.old.keeper) (K.faults self.new.keeper) (has_keeper_failed result) }
        ensures link { has_link_failed result ≡ false }
        ensures untold { K.told self.old.keeper ≡ None → K.told self.new.keeper ≡ None }
        ensures fit { IfOk result (λ reply. IsTrue (is_fit reply)) }
    {
        operations_on_names_keep_bytes();
        shared_blocks_keep_bytes();
        let plan = dir_ops::plan(self.alloc, &mut self.keeper, &self.handles, pass, op, now)?;
        fulfil(&mut self.keeper, &mut self.handles, pass, op, plan)
    }

    /// Carries out an operation that locks or removes a tree, by its plan.
    fn on_trees(&mut self, pass: u64, op: &Op, now: u64) -> Result<Reply, Refusal>
        requires op { IsTrue (tree_plans.is_planned op.now) }
        requires now { now < 2 ^ 62 }
        ensures outcome { (whole : Tree) (objects : Option Objects) → StandsFor K.told self.old whole → IsOutcome K.told self.old self.new sha256 objects objects whole pass op.now now result }
        ensures keeper { HasCause (K.faults self.old.keeper) (K.faults self.new.keeper) (has_keeper_failed result) }
        ensures link { has_link_failed result ≡ false }
        ensures untold { K.told self.old.keeper ≡ None → K.told self.new.keeper ≡ None }
        ensures fit { IfOk result (λ reply. IsTrue (is_fit reply)) }
    {
        operations_on_names_keep_bytes();
        shared_blocks_keep_bytes();
        let plan = immutable_trees::plan(
            self.alloc,
            &mut self.keeper,
            &self.handles,
            pass,
            op,
            now,
        )?;
        fulfil(&mut self.keeper, &mut self.handles, pass, op, plan)
    }

    /// Copies a tree, by its plan.
    fn copy_tree(
        &mut self,
        source: u64,
        parent: u64,
        name: &ByteList,
        now: u64,
    ) -> Result<Reply, Refusal>
        requires now { now < 2 ^ 62 }
        ensures outcome { (whole : Tree) (pass : ℕ) (objects : Option Objects) → StandsFor K.told self.old whole
            → IsOutcome K.told self.old self.new sha256 objects objects whole pass (ops.CopyTree source parent name.now) now result }
        ensures keeper { HasCause (K.faults self.old.keeper) (K.faults self.new.keeper) (has_keeper_failed result) }
        ensures link { has_link_failed result ≡ false }
        ensures untold { K.told self.old.keeper ≡ None → K.told self.new.keeper ≡ None }
        ensures fit { IfOk result (λ reply. IsTrue (is_fit reply)) }
    {
        copied_trees_keep_bytes();
        shared_blocks_keep_bytes();
        let plan = copy_batch(self.alloc, &mut self.keeper, source, parent, name, now)?;
        take(&mut self.keeper, plan)
    }
}
