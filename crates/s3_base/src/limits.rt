/// One more than the last inode, handle, pass, count and time, and than the number of any row.
pub const LIMIT: u64 = 1 << 62;
