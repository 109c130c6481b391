//! The core over rows, and how it answers.
ghost use Rattle.std.specs.Prelude.{◌≡◌, ◌<◌, ◌^◌, None, IsTrue};
ghost use Rattle.sha2.specs.Sha256.{sha256};
ghost use Rattle.s3_base.specs.Faults.{HasCause, HasRisen};
ghost use Rattle.op_frames.specs.Operations.{is_op};
ghost use Rattle.op_frames.specs.Answers.{has_short_data};
ghost use Rattle.op_frames.specs.Replies.{is_reply};
ghost use Rattle.op_frames.specs.Rules.{has_fit_fields};
ghost use Rattle.plain_tree.specs.Tree.{Tree};
ghost use Rattle.volume_core.specs.Standing.{StandsFor};
ghost use Rattle.plain_tree.specs.Calls.{tree_after_reply};
ghost use Rattle.volume_core.specs.Answers.{IsAnswered, IsExactReply, IsRowAnswer, answered, is_keeper_fault, is_link_fault, refusal_reply};
ghost use Rattle.volume_core.specs.Backed.{GoesOnBacked, StaysStored};

use crate::refusal::Refusal;
use op_frames::{Cause, Op, Reply, replies_fit, reply_is_within_rules};
use ref_counts::Handles;
use s3_base::Errno;
use s3_devices::Link;
use s3_rows::{Digest, Keeper};
use std::alloc::Global;

/// The core of a file system whose names, entries, attributes, times, lengths and places of files stand in the keeper alone. The bytes
/// of files lie as blocks in the object store, and are written through.
#[derive(Drop)]
pub struct RowCore<K: Keeper> {
    pub(crate) alloc: Global,
    pub(crate) keeper: K,
    pub(crate) handles: Handles,
}

/// Why a core was not opened.
#[derive(Clone, Copy, Debug, PartialEq, Eq)]
pub enum OpenFault {
    /// The keeper has no parameters: no file system was made in it.
    NoFileSystem,
    /// The file system was not shut, or is to be checked first.
    Unclean,
    /// The keeper failed.
    Keeper,
    /// There is no memory.
    Memory,
}

impl<K: Keeper> RowCore<K> {
    /// The reply to an operation of a pass at the time `now`, in nanoseconds below 2^62. One that is not built is answered ENOSYS. The
    /// blocks of files lie behind the link, and are written before it answers.
    pub fn answer<L: Link>(&mut self, pass: u64, op: &Op, now: u64, link: &mut L) -> Reply
        requires op { IsTrue (is_op op.now) }
        requires now { now < 2 ^ 62 }
        // The core stands for the tree after the reply, which is like the plain tree's, or one outside its rules.
        ensures stands { (whole : Tree) → StandsFor K.told self.old whole → StandsFor K.told self.new (tree_after_reply whole (answered pass op.now now result)) }
        ensures answer { (whole : Tree) → StandsFor K.told self.old whole
            → IsRowAnswer (HasRisen (K.faults self.old.keeper) (K.faults self.new.keeper)) (HasRisen (L.faults link.old) (L.faults link.new)) sha256
            (K.told self.old.keeper) (K.told self.new.keeper) (L.told link.old) whole (record { pass = pass; now = now; op = op.now }) result }
        // The object of each block row stays stored.
        ensures stored { (whole : Tree) → StandsFor K.told self.old whole → StaysStored sha256 (K.told self.old.keeper) (K.told self.new.keeper) (L.told link.old) (L.told link.new) }
        // Where contents know the blocks, the reply is the plain tree's unless it is one outside its rules, and the bytes of the tree after
        // it are there.
        ensures bytes { (whole : Tree) → StandsFor K.told self.old whole
            → GoesOnBacked sha256 (IsExactReply whole (answered pass op.now now result)) (K.told self.old.keeper) (K.told self.new.keeper) (L.told link.old) (L.told link.new)
            whole (tree_after_reply whole (answered pass op.now now result)) }
        // The counts of faults never fall, and rose where a fault of their device is answered, whether it tells its content or not.
        ensures keeper { HasCause (K.faults self.old.keeper) (K.faults self.new.keeper) (is_keeper_fault result) }
        ensures link { HasCause (L.faults link.old) (L.faults link.new) (is_link_fault result) }
        ensures untold { K.told self.old.keeper ≡ None → K.told self.new.keeper ≡ None }
        // The fields of the reply are within their rules, so that its frame is read again, and its data fit into one.
        ensures reply { IsTrue (is_reply result) }
        ensures short { IsTrue (has_short_data result) }
    {
        let reply = self.reply_to(link, pass, op, now);
        reply_is_within_rules(&reply);
        replies_fit();
        reply
    }

    /// The reply, of which what its types do not say is known.
    fn reply_to<L: Link>(&mut self, link: &mut L, pass: u64, op: &Op, now: u64) -> Reply
        requires op { IsTrue (is_op op.now) }
        requires now { now < 2 ^ 62 }
        ensures answer { (whole : Tree) → StandsFor K.told self.old whole
            → IsAnswered K.told self.old self.new (HasRisen (K.faults self.old.keeper) (K.faults self.new.keeper)) (HasRisen (L.faults link.old) (L.faults link.new)) sha256
            (L.told link.old) (L.told link.new) whole (record { pass = pass; now = now; op = op.now }) result }
        ensures keeper { HasCause (K.faults self.old.keeper) (K.faults self.new.keeper) (is_keeper_fault result) }
        ensures link { HasCause (L.faults link.old) (L.faults link.new) (is_link_fault result) }
        ensures untold { K.told self.old.keeper ≡ None → K.told self.new.keeper ≡ None }
        ensures fit { IsTrue (has_fit_fields result) }
    {
        match self.carry_out(link, pass, op, now) {
            Ok(reply) => reply,
            Err(refusal) => reply_of(refusal),
        }
    }
}

/// The bytes of a digest.
fn digest_bytes(digest: Digest) -> [u8; 32]
    ensures { result ≡ digest.0 }
{
    let Digest(bytes) = digest;
    bytes
}

/// The reply by a refusal.
fn reply_of(refusal: Refusal) -> Reply
    ensures reply { result ≡ refusal_reply refusal }
    ensures fit { IsTrue (has_fit_fields result) }
{
    match refusal {
        Refusal::Refused(errno) => Reply::Errno(errno),
        Refusal::Worn => Reply::Errno(Errno::ENOSPC),
        Refusal::Keeper => Reply::Fault(Cause::Keeper),
        Refusal::Link => Reply::Fault(Cause::Link),
        Refusal::Lost { object, kept, got } => Reply::Lost {
            object,
            kept: digest_bytes(kept),
            got: got.map(digest_bytes),
        },
        Refusal::Memory => Reply::Fault(Cause::Memory),
    }
}
