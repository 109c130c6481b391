//! How many rows tables have.
ghost use Rattle.std.specs.Prelude.{◌≡◌, IfOk};
ghost use Rattle.s3_base.specs.Faults.{HasCause};
ghost use Rattle.s3_rows.specs.Tables.{IsOrdered};
ghost use Rattle.s3_rows.specs.Told.{IfTold, has_failed};
ghost use Rattle.inode_ops.specs.Tallies.{AreCounted};

use crate::counting::count;
use s3_rows::{Keeper, KeeperFault, TableName};

/// How many rows of inodes, entries, places, blocks and objects there are, and how many objects no block has. Numbers stand still at
/// the end of their type.
#[derive(Clone, Copy, Debug, PartialEq, Eq)]
pub struct RowStats {
    pub inodes: u64,
    pub entries: u64,
    pub links: u64,
    pub blocks: u64,
    pub objects: u64,
    pub free: u64,
}

/// Counts the rows of five tables, each page by page. The core calls it for its owner.
pub fn stats<K: Keeper>(keeper: &mut K) -> Result<RowStats, KeeperFault>
    ensures counted { IfOk result (λ s. IfTold (K.told keeper.old) (λ t. IsOrdered t → AreCounted t s)) }
    ensures same { K.told keeper.new ≡ K.told keeper.old }
    ensures cause { HasCause (K.faults keeper.old) (K.faults keeper.new) (has_failed result) }
{
    let inodes = count(keeper, TableName::Inodes)?;
    let entries = count(keeper, TableName::Contents)?;
    let links = count(keeper, TableName::InodeBlocks)?;
    let blocks = count(keeper, TableName::Blocks)?;
    let objects = count(keeper, TableName::Objects)?;
    Ok(RowStats {
        inodes: inodes.rows,
        entries: entries.rows,
        links: links.rows,
        blocks: blocks.rows,
        objects: objects.rows,
        free: objects.weight,
    })
}
