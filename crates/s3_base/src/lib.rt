//! Byte streams, a clock and the small lists that every layer above shares.
#![tactic(auto)]

mod byte_list;
mod clock;
mod errors;
mod limits;
mod memory;
mod node_kind;
mod sequence;
mod standard;
mod stream;
#[cfg(test)]
mod tests;

pub use byte_list::ByteList;
pub use clock::{Clock, FixedClock};
pub use errors::{Errno, Failed};
pub use limits::LIMIT;
pub use memory::{MemSink, MemSource};
pub use node_kind::Kind;
pub use sequence::{NumberList, Sequence, WordList};
pub use standard::{StdClock, StdSink, StdSource};
pub use stream::{Sink, Source};
