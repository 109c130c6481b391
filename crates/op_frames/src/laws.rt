//! Laws of the formats, each the contract of a function without a body.
ghost use Rattle.std.specs.Prelude.{◌≡◌, ◌++◌, List, ℕ, IsTrue};
ghost use Rattle.op_frames.specs.declared.operation.Op.{Op};
ghost use Rattle.op_frames.specs.declared.operation.Step.{Step};
ghost use Rattle.op_frames.specs.Operations.{op_field, step_field, is_op, is_step};
ghost use Rattle.frame_fields.specs.Frames.{frame_of};
ghost use Rattle.op_frames.specs.declared.reply.Reply.{Reply};
ghost use Rattle.op_frames.specs.Replies.{reply_field, is_reply};
ghost use Rattle.op_frames.specs.Answers.{has_short_data};

/// No frame of an operation begins another, so what was written is read again, whatever follows it.
pub fn op_frames_differ()
    ensures { (a b : Op) (x y : List ℕ) → IsTrue (is_op a) → IsTrue (is_op b)
        → frame_of op_field a ++ x ≡ frame_of op_field b ++ y → (a ≡ b) × (x ≡ y) }
{}

/// The same of the frames of steps.
pub fn step_frames_differ()
    ensures { (a b : Step) (x y : List ℕ) → IsTrue (is_step a) → IsTrue (is_step b)
        → frame_of step_field a ++ x ≡ frame_of step_field b ++ y → (a ≡ b) × (x ≡ y) }
{}

/// The same of the frames of replies.
pub fn reply_frames_differ()
    ensures { (a b : Reply) (x y : List ℕ) → IsTrue (is_reply a) → IsTrue (is_reply b)
        → frame_of reply_field a ++ x ≡ frame_of reply_field b ++ y → (a ≡ b) × (x ≡ y) }
{}

/// A reply within its rules fits into a frame, as `encode_reply` requires.
pub fn replies_fit()
    ensures { (reply : Reply) → IsTrue (is_reply reply) → IsTrue (has_short_data reply) }
{}
