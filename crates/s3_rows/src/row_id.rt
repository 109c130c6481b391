/// The row that a change is about: its table, and its key. A key of two parts has them in the order of the row's fields.
#[derive(Clone, Copy, Debug, PartialEq, Eq, PartialOrd, Ord)]
pub enum RowId {
    Inode(u64),
    Name(u64),
    Content(u64, u64),
    InodeBlock(u64, u64),
    Block(u64),
    Object(u64),
    Target(u64),
    Attr(u64, u64),
    Slot(u32),
    Params,
}
