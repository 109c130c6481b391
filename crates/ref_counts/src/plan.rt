//! What an operation is to do: its refusal, or one batch and its reply.
ghost use Rattle.std.specs.Prelude.{◌≡◌, IsTrue, IfOk};
ghost use Rattle.ref_counts.specs.Answers.{answer_plan};
ghost use Rattle.ref_counts.specs.Plans.{HasFitReply, is_fit};

use op_frames::Reply;
use s3_base::{Errno, Sequence};
use s3_rows::{Batch, SpotList};
use std::alloc::Global;

/// What an operation is to do. `drop` has the first blocks of files whose blocks in the cache go.
#[derive(Debug, Drop)]
pub enum Plan {
    /// It is refused with this error.
    Refuse(Errno),
    /// It needs a name id and none is left, or a count would not be below 2^62.
    Worn,
    /// This batch is committed, and then this reply given.
    Commit {
        batch: Batch,
        reply: Reply,
        drop: SpotList,
    },
}

/// No row is changed, and this is the reply; or the error is the refusal.
pub fn answer(alloc: Global, replied: Result<Reply, Errno>) -> Plan
    requires { IfOk replied (λ reply. IsTrue (is_fit reply)) }
    ensures plan { result ≡ answer_plan replied }
    ensures fit { HasFitReply result }
{
    match replied {
        Ok(reply) => Plan::Commit {
            batch: Batch::new(alloc),
            reply,
            drop: Sequence::new(alloc),
        },
        Err(errno) => Plan::Refuse(errno),
    }
}
