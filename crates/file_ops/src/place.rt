use s3_rows::BlockRow;

/// Where the bytes of a block are found.
#[derive(Clone, Copy, Debug, PartialEq, Eq)]
pub enum Place {
    /// The block is all zeros, and has no row.
    Zeros,
    /// A row has the digest: one of the tables, or of a new block that comes before.
    Known(BlockRow),
    /// The block is new, and this is to be its row.
    New(BlockRow),
}
