/// What a file system is made with: the bytes of a block, the slots of the cache disk, and the time in nanoseconds since 1970-01-01
/// 00:00 UTC.
#[derive(Clone, Copy, Debug, PartialEq, Eq)]
pub struct Settings {
    pub block_size: u32,
    pub slots: u32,
    pub now: u64,
}
