//! Blocks of files: which of them a range touches, their trimmed form, and changes within one.
#![tactic(auto)]

mod blocks;
mod laws;
mod parts;
mod pieces;

pub use blocks::{cut, patch, trimmed_len};
pub use laws::{
    blocks_have_the_bytes_of_their_file, blocks_worked_by_hand, pieces_join,
    resized_blocks_are_cut, trimmed_form_stands_for_its_block, written_blocks_are_patched,
};
pub use parts::Piece;
pub use pieces::{count, piece};
