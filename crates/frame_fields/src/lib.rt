//! Plain fields of frames: what a field is, its one spelling, its reader and its writer, and the frame around fields.
#![tactic(auto)]

mod fault;
pub mod fields;
pub mod framing;
mod laws;
pub mod writers;

pub use fault::FrameFault;
pub use laws::{bytes_read_back, codes_read_back, numbers_read_back};
