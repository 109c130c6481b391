/// The part of a range that lies in one block: the block's number, the place in the block, the place in the range, and how many
/// bytes.
#[derive(Clone, Copy, Debug, PartialEq, Eq)]
pub struct Piece {
    pub blockno: u64,
    pub at: u32,
    pub from: u32,
    pub len: u32,
}
