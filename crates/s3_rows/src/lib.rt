//! The rows of the metadata tables, batches of changes, and the trait of every store of tables.
#![tactic(auto)]

mod all_tables;
mod batch;
mod block_rows;
mod change;
mod digest;
mod index;
mod inode_row;
mod keeper;
mod laws;
mod lists;
mod made;
mod name_rows;
mod params;
mod row_id;
mod table_rows;
#[cfg(test)]
mod tests;

pub use all_tables::Tables;
pub use batch::Batch;
pub use block_rows::{BlockRow, InodeBlockRow, ObjectRow, SlotRow};
pub use change::Change;
pub use digest::Digest;
pub use inode_row::InodeRow;
pub use keeper::{Keeper, KeeperFault};
pub use laws::{forsaken_objects_are_not_clean, made_tables_are_clean, rings_are_not_valid};
pub use lists::{
    EntryList, InodeBlockList, NamedAttr, NamedAttrList, NamedEntry, SlotList, Spot, SpotList,
};
pub use made::{made_batch, made_directory};
pub use name_rows::{AttrRow, ContentRow, NameRow, TargetRow};
pub use params::{Params, State};
pub use row_id::RowId;
pub use table_rows::{Row, RowKey, RowList, TableName};
