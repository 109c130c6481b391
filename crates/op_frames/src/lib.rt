//! Frames of operations, replies and calls: one spelling for each value, and the first fault of any bytes.
#![tactic(auto)]

mod codes;
mod decode;
mod encode;
mod flags;
mod laws;
mod operation;
mod put_fields;
mod put_op;
mod reply;
mod reply_fields;
mod shapes;
mod tags;
mod within_rules;

pub use decode::{decode_call, decode_op, decode_reply};
pub use encode::{encode_answer, encode_bad_input, encode_op, encode_reply};
pub use frame_fields::FrameFault;
pub use laws::{op_frames_differ, replies_fit, reply_frames_differ, step_frames_differ};
pub use operation::{Op, SetFlag, Step};
pub use reply::{Attr, Cause, DirEntry, DirEntryList, NameList, Reply};
pub use within_rules::reply_is_within_rules;
