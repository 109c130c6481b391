//! The traits of the devices that hold the bytes of files: the object store, and the cache disk. Keys of the object store.
#![tactic(auto)]

mod disk;
mod key_list;
mod keys;
mod laws;
mod link;

pub use disk::{Disk, DiskFault};
pub use key_list::{KeyItem, KeyList};
pub use keys::{data_key, generation_key};
pub use laws::{
    deleted_object_is_absent, keys_are_short, keys_name_one_thing, keys_worked_by_hand,
    listed_keys_are_a_page, objects_change_by_their_keys, put_object_is_held,
};
pub use link::{Link, LinkFault};
