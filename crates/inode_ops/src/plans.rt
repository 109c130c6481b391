//! The plans of all operations of this crate.
ghost use Rattle.std.specs.Prelude.{◌≡◌, ◌<◌, ◌^◌, ℕ, [], IsTrue, IfOk};
ghost use Rattle.s3_base.specs.Faults.{HasCause};
ghost use Rattle.s3_rows.specs.Told.{IfTold, has_failed};
ghost use Rattle.s3_rows.specs.Validity.{IsValid, HasUniqueNames};
ghost use Rattle.plain_tree.specs.Tree.{Tree};
ghost use Rattle.plain_tree.specs.WellFormed.{IsWellFormed};
ghost use Rattle.tree_rows.specs.Shapes.{Represents};
ghost use Rattle.ref_counts.specs.Handles.{HasHandles};
ghost use Rattle.ref_counts.specs.Plans.{IsPlanOf, HasFitReply};
ghost use Rattle.inode_ops.specs.Plans.{is_planned};

use crate::attributes::{chmod_of, chown_of, getattr_of, utimes_of};
use crate::handles_of::{leave, open_of, release};
use crate::reading::{getxattr, listxattr, readlink};
use crate::statfs::statfs;
use crate::symlink::{LINK_MODE, plan_symlink};
use crate::xattrs::{removexattr, setxattr};
use dir_ops::new_entry::NewInode;
use op_frames::Op;
use ref_counts::{Handles, Plan};
use s3_rows::{Keeper, KeeperFault};
use std::alloc::Global;

/// The plan of an operation of a pass at a time: Getattr, Chmod, Chown, Utimes, Symlink, Readlink, Open, Release, Statfs,
/// Setxattr, Getxattr, Listxattr, Removexattr or Leave. It commits nothing, and leaves the handles as they are.
pub fn plan<K: Keeper>(
    alloc: Global,
    keeper: &mut K,
    handles: &Handles,
    pass: u64,
    op: &Op,
    now: u64,
) -> Result<Plan, KeeperFault>
    requires planned { IsTrue (is_planned op.now) }
    requires now { now < 2 ^ 62 }
    // No slot of a cache disk is in use.
    ensures plan { IfOk result (λ p. IfTold (K.told keeper.old) (λ t. IsValid t → HasUniqueNames t → t.slots ≡ []
        → (whole : Tree) → Represents t whole → IsWellFormed whole → HasHandles handles.now whole → IsPlanOf t whole pass op.now now p)) }
    ensures same { K.told keeper.new ≡ K.told keeper.old }
    ensures cause { HasCause (K.faults keeper.old) (K.faults keeper.new) (has_failed result) }
    ensures fit { IfOk result HasFitReply }
{
    match op {
        Op::Getattr { inode } => {
            let found = keeper.inode(*inode)?;
            Ok(getattr_of(alloc, found))
        }
        Op::Chmod { inode, mode } => {
            let found = keeper.inode(*inode)?;
            Ok(chmod_of(alloc, found, *mode, now)?)
        }
        Op::Chown { inode, uid, gid } => {
            let found = keeper.inode(*inode)?;
            Ok(chown_of(alloc, found, *uid, *gid, now)?)
        }
        Op::Utimes { inode, mtime } => {
            let found = keeper.inode(*inode)?;
            Ok(utimes_of(alloc, found, *mtime, now)?)
        }
        Op::Symlink {
            parent,
            name,
            target,
            uid,
            gid,
        } => plan_symlink(
            alloc,
            keeper,
            *parent,
            name,
            target,
            &NewInode {
                mode: LINK_MODE,
                uid: *uid,
                gid: *gid,
                now,
            },
        ),
        Op::Readlink { inode } => readlink(alloc, keeper, *inode),
        Op::Open { inode } => {
            let found = keeper.inode(*inode)?;
            Ok(open_of(alloc, found, handles))
        }
        Op::Release { handle } => release(alloc, keeper, handles, pass, *handle),
        Op::Statfs => statfs(alloc, keeper),
        Op::Setxattr {
            inode,
            name,
            flag,
            value,
        } => setxattr(alloc, keeper, *inode, name, *flag, value, now),
        Op::Getxattr { inode, name } => getxattr(alloc, keeper, *inode, name),
        Op::Listxattr { inode, after, max } => listxattr(alloc, keeper, *inode, after, *max),
        Op::Removexattr { inode, name } => removexattr(alloc, keeper, *inode, name, now),
        Op::Leave => leave(alloc, keeper, handles, pass),
        _ => unreachable!(),
    }
}
