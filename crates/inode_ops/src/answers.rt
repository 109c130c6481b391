//! Plans made of what checks have answered.
ghost use Rattle.std.specs.Prelude.{◌≡◌, [], IfOk};
ghost use Rattle.op_frames.specs.declared.reply.Reply.TheVariants as replies;
ghost use Rattle.ref_counts.specs.Plans.{HasFitReply};
ghost use Rattle.inode_ops.specs.Answers.{put_plan};

use op_frames::Reply;
use ref_counts::{Plan, attr_of};
use s3_base::{Errno, Sequence};
use s3_rows::{Batch, Change, InodeRow};
use std::alloc::{AllocError, Global};

/// The row is put, and its attributes are the reply; or the error is the refusal.
pub fn put(alloc: Global, changed: Result<InodeRow, Errno>) -> Result<Plan, AllocError>
    ensures plan { IfOk result (λ p. p ≡ put_plan changed) }
    ensures fit { IfOk result HasFitReply }
{
    let row = match changed {
        Ok(row) => row,
        Err(errno) => return Ok(Plan::Refuse(errno)),
    };
    let mut batch = Batch::new(alloc);
    batch.push(Change::PutInode(row))?;
    Ok(Plan::Commit {
        batch,
        reply: Reply::Attr(attr_of(&row)),
        drop: Sequence::new(alloc),
    })
}

/// The batch is committed, and there is nothing to answer but that.
pub fn done(alloc: Global, batch: Batch) -> Plan
    ensures plan { result ≡ Plan.Commit batch replies.Done [] }
    ensures fit { HasFitReply result }
{
    Plan::Commit {
        batch,
        reply: Reply::Done,
        drop: Sequence::new(alloc),
    }
}
