//! The plan of an operation.
ghost use Rattle.std.specs.Prelude.{◌≡◌, ◌<◌, ◌^◌, ℕ, [], IsTrue, IfOk};
ghost use Rattle.s3_base.specs.Faults.{HasCause};
ghost use Rattle.op_frames.specs.Operations.{is_op};
ghost use Rattle.plain_tree.specs.Tree.{Tree};
ghost use Rattle.plain_tree.specs.WellFormed.{IsWellFormed};
ghost use Rattle.s3_rows.specs.Tables.{Tables};
ghost use Rattle.s3_rows.specs.Told.{IfTold, has_failed};
ghost use Rattle.s3_rows.specs.Validity.{IsValid, HasUniqueNames};
ghost use Rattle.tree_rows.specs.Shapes.{Represents};
ghost use Rattle.ref_counts.specs.Handles.{HasHandles};
ghost use Rattle.ref_counts.specs.Plans.{IsPlanOf, HasFitReply};
ghost use Rattle.dir_ops.specs.Plans.{is_planned};

use crate::create::plan_create;
use crate::link::plan_link;
use crate::lookup::plan_lookup;
use crate::mkdir::plan_mkdir;
use crate::new_entry::NewInode;
use crate::readdir::plan_readdir;
use crate::rename::plan_rename;
use crate::rmdir::plan_rmdir;
use crate::unlink::plan_unlink;
use op_frames::Op;
use ref_counts::{Handles, Plan};
use s3_rows::{Keeper, KeeperFault};
use std::alloc::Global;

/// The plan of an operation of a pass on entries of directories, at a time: Lookup, Mkdir, Create, Unlink, Rmdir,
/// Rename, Link or Readdir. It commits nothing.
pub fn plan<K: Keeper>(
    alloc: Global,
    keeper: &mut K,
    handles: &Handles,
    pass: u64,
    op: &Op,
    now: u64,
) -> Result<Plan, KeeperFault>
    requires planned { IsTrue (is_planned op.now) }
    requires now { now < 2 ^ 62 }
    // No slot of a cache disk is in use.
    ensures plan { IfOk result (λ p. IfTold (K.told keeper.old) (λ t. IsValid t → HasUniqueNames t → t.slots ≡ []
        → (whole : Tree) → Represents t whole → IsWellFormed whole → HasHandles handles.now whole → IsPlanOf t whole pass op.now now p)) }
    ensures same { K.told keeper.new ≡ K.told keeper.old }
    ensures cause { HasCause (K.faults keeper.old) (K.faults keeper.new) (has_failed result) }
    ensures fit { IfOk result HasFitReply }
{
    match op {
        Op::Lookup { parent, name } => plan_lookup(alloc, keeper, *parent, name),
        Op::Create {
            parent,
            name,
            mode,
            uid,
            gid,
        } => plan_create(
            alloc,
            keeper,
            handles,
            *parent,
            name,
            &NewInode {
                mode: *mode,
                uid: *uid,
                gid: *gid,
                now,
            },
        ),
        Op::Mkdir {
            parent,
            name,
            mode,
            uid,
            gid,
        } => plan_mkdir(
            alloc,
            keeper,
            *parent,
            name,
            &NewInode {
                mode: *mode,
                uid: *uid,
                gid: *gid,
                now,
            },
        ),
        Op::Unlink { parent, name } => plan_unlink(alloc, keeper, handles, *parent, name, now),
        Op::Rmdir { parent, name } => plan_rmdir(alloc, keeper, *parent, name, now),
        Op::Rename {
            parent,
            name,
            new_parent,
            new_name,
        } => plan_rename(
            alloc,
            keeper,
            handles,
            *parent,
            name,
            *new_parent,
            new_name,
            now,
        ),
        Op::Link {
            inode,
            parent,
            name,
        } => plan_link(alloc, keeper, *inode, *parent, name, now),
        Op::Readdir { inode, after, max } => plan_readdir(alloc, keeper, *inode, after, *max),
        _ => unreachable!(),
    }
}
