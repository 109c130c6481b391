//! The table of checks: one function for each line, which answers Ok where the check does not fail, and else its error. What a
//! check asks of a node it asks of the node's row.
#![tactic(auto)]

mod laws;
mod rows;
mod values;

pub use laws::row_checks_are_checks;
pub use rows::{
    check_attribute, check_directory, check_entry, check_file, check_free, check_hand, check_ids,
    check_link, check_named, check_no_directory, check_node, check_open, check_unlocked,
};
pub use values::{
    ROOT, check_attribute_name, check_cache, check_flag, check_keep, check_mode, check_name,
    check_page, check_read_length, check_root, check_size, check_target, check_time, check_value,
    check_write_end,
};
