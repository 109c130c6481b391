//! Laws of the plain tree, for every tree and every operation.
ghost use Rattle.std.specs.Prelude.{◌≡◌, ◌≢◌, ℕ, List, Option, Some, true};
ghost use Rattle.op_frames.specs.declared.operation.Op.{Op};
ghost use Rattle.op_frames.specs.declared.reply.Reply.TheVariants as replies;
ghost use Rattle.op_frames.specs.Replay.{Request};
ghost use Rattle.s3_base.specs.declared.errors.Errno.{Errno};
ghost use Rattle.plain_tree.specs.Tree.{Tree, Handle, made_tree, handle_of};
ghost use Rattle.plain_tree.specs.Operations.{reply_to, tree_after, only_reads, handle_used, HandlesBelow, HandlesApart};
ghost use Rattle.plain_tree.specs.Calls.{tree_after_all};

/// A refusal changes nothing.
pub fn refusals_change_nothing()
    ensures { (t : Tree) (pass now : ℕ) (op : Op) (errno : Errno) → reply_to t pass op now ≡ replies.Errno errno → tree_after t pass op now ≡ t }
{}

/// What only reads changes nothing.
pub fn reading_changes_nothing()
    ensures { (t : Tree) (pass now : ℕ) (op : Op) → only_reads op ≡ true → tree_after t pass op now ≡ t }
{}

/// A call of one pass leaves every handle of every other pass as it was, and gives it no new one.
// Without `HandlesApart` this fails, at trees that no calls lead to: where pass 1 and after it pass 2 has a handle of
// number 0, a look-up finds that of pass 1, and after its `Leave` that of pass 2, which so gains a handle.
pub fn handles_belong_to_a_pass()
    ensures { (t : Tree) (pass other now handle : ℕ) (op : Op) → HandlesBelow t → HandlesApart t → other ≢ pass → handle_of (tree_after t pass op now) other handle ≡ handle_of t other handle }
{}

/// Whatever calls come after the making, each handle number in use is below the next one, as the law before wants it.
pub fn handles_stay_below()
    ensures { (block_size time : ℕ) (calls : List Request) → HandlesBelow (tree_after_all (made_tree block_size time) calls) }
{}

/// Whatever calls come after the making, no two handles in use have one number, as the law on passes wants it.
pub fn handles_stay_apart()
    ensures { (block_size time : ℕ) (calls : List Request) → HandlesApart (tree_after_all (made_tree block_size time) calls) }
{}

/// So whatever calls come after the making, a call of one pass leaves every handle of every other pass as it was, and gives
/// it no new one.
pub fn others_keep_their_handles()
    ensures { (block_size time : ℕ) (calls : List Request) (pass other now handle : ℕ) (op : Op) → other ≢ pass
        → handle_of (tree_after (tree_after_all (made_tree block_size time) calls) pass op now) other handle ≡ handle_of (tree_after_all (made_tree block_size time) calls) other handle }
{}

/// A call through a handle of another pass is refused.
pub fn other_handles_are_refused()
    ensures { (t : Tree) (pass other now handle : ℕ) (op : Op) (opened : Handle) → handle_of t other handle ≡ Some opened → other ≢ pass → handle_used op ≡ Some handle
        → (errno : Errno) × (reply_to t pass op now ≡ replies.Errno errno) }
{}
