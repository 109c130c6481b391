//! Plans of Getattr, Chmod, Chown and Utimes.
ghost use Rattle.std.specs.Prelude.{◌≡◌, ◌<◌, ◌^◌, ℕ, [], ◌∷◌, IsTrue, IfOk};
ghost use Rattle.op_frames.specs.declared.operation.Op.TheVariants as ops;
ghost use Rattle.op_frames.specs.declared.reply.Reply.TheVariants as replies;
ghost use Rattle.s3_rows.specs.Tables.{Tables};
ghost use Rattle.s3_rows.specs.Selections.{inode_at};
ghost use Rattle.s3_rows.specs.Validity.{IsValid};
ghost use Rattle.plain_tree.specs.Tree.{Tree};
ghost use Rattle.plain_tree.specs.Checks.{first_failure, mode_check, time_check};
ghost use Rattle.tree_rows.specs.Attrs.{attr_of_row};
ghost use Rattle.tree_rows.specs.Shapes.{Represents};
ghost use Rattle.op_checks.specs.Checks.{Checks};
ghost use Rattle.op_checks.specs.Rows.{row_check, lock_row_check};
ghost use Rattle.ref_counts.specs.Plans.{IsPlanOf, HasFitReply, is_fit};
ghost use Rattle.ref_counts.specs.Answers.{IsReplyOf};
ghost use Rattle.inode_ops.specs.Answers.{IsChangedRow};

use crate::answers::put;
use op_checks::{check_mode, check_node, check_time, check_unlocked};
use op_frames::Reply;
use ref_counts::{Plan, answer, attr_of};
use s3_base::Errno;
use s3_rows::InodeRow;
use std::alloc::{AllocError, Global};

/// The attributes of a row that is there.
fn attr_reply(found: Option<InodeRow>) -> Result<Reply, Errno>
    ensures check { Checks result (first_failure (row_check found ∷ [])) }
    ensures reply { IfOk result (IsReplyOf found (λ r. replies.Attr (attr_of_row r))) }
    ensures fit { IfOk result (λ reply. IsTrue (is_fit reply)) }
{
    let row = check_node(found)?;
    Ok(Reply::Attr(attr_of(&row)))
}

/// The row with another mode, stamped.
fn with_mode(found: Option<InodeRow>, mode: u16, now: u64) -> Result<InodeRow, Errno>
    requires { now < 2 ^ 62 }
    ensures check { Checks result (first_failure (mode_check mode ∷ row_check found ∷ lock_row_check found ∷ [])) }
    ensures row { IfOk result (IsChangedRow found (λ r. record r { mode = mode; ctime = now })) }
{
    check_mode(mode)?;
    let row = check_node(found)?;
    check_unlocked(&row)?;
    Ok(InodeRow {
        mode,
        ctime: now,
        ..row
    })
}

/// The row with other owners, stamped.
fn with_owners(found: Option<InodeRow>, uid: u32, gid: u32, now: u64) -> Result<InodeRow, Errno>
    requires { now < 2 ^ 62 }
    ensures check { Checks result (first_failure (row_check found ∷ lock_row_check found ∷ [])) }
    ensures row { IfOk result (IsChangedRow found (λ r. record r { uid = uid; gid = gid; ctime = now })) }
{
    let row = check_node(found)?;
    check_unlocked(&row)?;
    Ok(InodeRow {
        uid,
        gid,
        ctime: now,
        ..row
    })
}

/// The row with another time of modification, stamped.
fn with_mtime(found: Option<InodeRow>, mtime: u64, now: u64) -> Result<InodeRow, Errno>
    requires { now < 2 ^ 62 }
    ensures check { Checks result (first_failure (time_check mtime ∷ row_check found ∷ lock_row_check found ∷ [])) }
    ensures row { IfOk result (IsChangedRow found (λ r. record r { mtime = mtime; ctime = now })) }
{
    check_time(mtime)?;
    let row = check_node(found)?;
    check_unlocked(&row)?;
    Ok(InodeRow {
        mtime,
        ctime: now,
        ..row
    })
}

pub fn getattr_of(alloc: Global, found: Option<InodeRow>) -> Plan
    ensures plan { (t : Tables) (whole : Tree) (pass x now : ℕ) → IsValid t → Represents t whole → found ≡ inode_at t x → IsPlanOf t whole pass (ops.Getattr x) now result }
    ensures fit { HasFitReply result }
{
    answer(alloc, attr_reply(found))
}

pub fn chmod_of(
    alloc: Global,
    found: Option<InodeRow>,
    mode: u16,
    now: u64,
) -> Result<Plan, AllocError>
    requires { now < 2 ^ 62 }
    ensures plan { IfOk result (λ p. (t : Tables) (whole : Tree) (pass x : ℕ) → IsValid t → Represents t whole → found ≡ inode_at t x → IsPlanOf t whole pass (ops.Chmod x mode) now p) }
    ensures fit { IfOk result HasFitReply }
{
    put(alloc, with_mode(found, mode, now))
}

pub fn chown_of(
    alloc: Global,
    found: Option<InodeRow>,
    uid: u32,
    gid: u32,
    now: u64,
) -> Result<Plan, AllocError>
    requires { now < 2 ^ 62 }
    ensures plan { IfOk result (λ p. (t : Tables) (whole : Tree) (pass x : ℕ) → IsValid t → Represents t whole → found ≡ inode_at t x → IsPlanOf t whole pass (ops.Chown x uid gid) now p) }
    ensures fit { IfOk result HasFitReply }
{
    put(alloc, with_owners(found, uid, gid, now))
}

pub fn utimes_of(
    alloc: Global,
    found: Option<InodeRow>,
    mtime: u64,
    now: u64,
) -> Result<Plan, AllocError>
    requires { now < 2 ^ 62 }
    ensures plan { IfOk result (λ p. (t : Tables) (whole : Tree) (pass x : ℕ) → IsValid t → Represents t whole → found ≡ inode_at t x → IsPlanOf t whole pass (ops.Utimes x mtime) now p) }
    ensures fit { IfOk result HasFitReply }
{
    put(alloc, with_mtime(found, mtime, now))
}
