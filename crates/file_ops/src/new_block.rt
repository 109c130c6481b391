use s3_base::ByteList;

/// A block of a file as it is to be from now on: its bytes up to the last one that is not zero. A block of zeros has none.
#[derive(Debug, Drop)]
pub struct NewBlock {
    pub blockno: u64,
    pub stored: ByteList,
}
