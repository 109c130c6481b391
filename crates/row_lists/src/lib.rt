//! Lists of rows and look-ups by other columns than the key, over slices of rows in the order of their keys.
#![tactic(auto)]

mod listing;

pub use listing::{
    NameTable, blocks_of_inode, free_objects_of, holder_of_inode, page_of_attrs, page_of_blocks,
    page_of_contents, page_of_inode_blocks, page_of_inodes, page_of_names, page_of_objects,
    page_of_slots, page_of_targets, slot_of, slots_of,
};
