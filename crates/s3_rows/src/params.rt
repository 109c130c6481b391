use std::marker::Model;

/// Whether the file system may be opened.
#[derive(Clone, Copy, Debug, PartialEq, Eq)]
pub enum State {
    /// It was closed in order, and nobody serves it.
    Clean,
    /// It is served, or was when its server ended without closing it.
    Mounted,
    /// It was made from an older generation of its metadata.
    Restored,
}

/// What holds of the whole file system: the revision of the tables (always 1), the block size in bytes, the slots of the cache disk, the numbers that come next,
/// the generation of the metadata that was last begun, and the last one that is stored whole.
#[derive(Clone, Copy, Debug, PartialEq, Eq)]
pub struct Params {
    pub revision: u32,
    pub block_size: u32,
    pub slots: u32,
    pub state: State,
    pub next_inode: u64,
    pub next_name: u64,
    pub next_block: u64,
    pub next_object: u64,
    pub generation: u64,
    pub last_done: u64,
}

impl Model for Params {
    ghost use Rattle.s3_rows.specs.Rows.{Parameters, IsParameters};

    ghost Value = { Parameters };

    ghost view = { λ r. record { revision = r.revision; block_size = r.block_size; slots = r.slots; state = r.state; next_inode = r.next_inode; next_name = r.next_name; next_block = r.next_block; next_object = r.next_object; generation = r.generation; last_done = r.last_done } };

    ghost invariant = { λ r. IsParameters (record { revision = r.revision; block_size = r.block_size; slots = r.slots; state = r.state; next_inode = r.next_inode; next_name = r.next_name; next_block = r.next_block; next_object = r.next_object; generation = r.generation; last_done = r.last_done }) };

    ghost inverse = { λ r. record { revision = r.revision; block_size = r.block_size; slots = r.slots; state = r.state; next_inode = r.next_inode; next_name = r.next_name; next_block = r.next_block; next_object = r.next_object; generation = r.generation; last_done = r.last_done } };
}
