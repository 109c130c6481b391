//! The tables of a keeper.
ghost use Rattle.std.specs.Prelude.{◌≡◌, Some, is_some, IfOk, IfSome, IsTrue};
ghost use Rattle.s3_base.specs.Faults.{HasCause};
ghost use Rattle.s3_rows.specs.Keyed.{rises};
ghost use Rattle.s3_rows.specs.Tables.{IsOrdered, by_inode, by_name, by_entry, by_spot, by_block, by_object, by_target, by_attr, by_slot};
ghost use Rattle.s3_rows.specs.Told.{Told, IfTold, has_failed};

use crate::pages::read_rows;
use s3_base::Sequence;
use s3_rows::{
    AttrRow, BlockRow, ContentRow, InodeBlockRow, InodeRow, Keeper, KeeperFault, NameRow,
    ObjectRow, Params, SlotRow, Tables, TargetRow,
};
use std::alloc::Global;

/// The tables of files and names.
#[derive(Drop)]
struct FirstTables {
    inodes: Sequence<InodeRow>,
    names: Sequence<NameRow>,
    contents: Sequence<ContentRow>,
    inode_blocks: Sequence<InodeBlockRow>,
}

/// The tables of blocks, links, attributes and slots.
#[derive(Drop)]
struct LastTables {
    blocks: Sequence<BlockRow>,
    objects: Sequence<ObjectRow>,
    targets: Sequence<TargetRow>,
    attrs: Sequence<AttrRow>,
    slots: Sequence<SlotRow>,
}

fn read_first<K: Keeper>(alloc: Global, keeper: &mut K) -> Result<FirstTables, KeeperFault>
    ensures order { IfOk result (λ f. IsTrue (rises by_inode f.inodes) × IsTrue (rises by_name f.names)
        × IsTrue (rises by_entry f.contents) × IsTrue (rises by_spot f.inode_blocks)) }
    ensures read { (s : Told) → K.told keeper.old ≡ Some s → IsOrdered s.tables
        → IfOk result (λ f. (f.inodes ≡ s.tables.inodes) × (f.names ≡ s.tables.names)
        × (f.contents ≡ s.tables.contents) × (f.inode_blocks ≡ s.tables.inode_blocks)) }
    ensures same { K.told keeper.new ≡ K.told keeper.old }
    ensures cause { HasCause (K.faults keeper.old) (K.faults keeper.new) (has_failed result) }
{
    let inodes = read_rows(alloc, keeper)?;
    let names = read_rows(alloc, keeper)?;
    let contents = read_rows(alloc, keeper)?;
    let inode_blocks = read_rows(alloc, keeper)?;
    Ok(FirstTables {
        inodes,
        names,
        contents,
        inode_blocks,
    })
}

fn read_last<K: Keeper>(alloc: Global, keeper: &mut K) -> Result<LastTables, KeeperFault>
    ensures order { IfOk result (λ l. IsTrue (rises by_block l.blocks) × IsTrue (rises by_object l.objects)
        × IsTrue (rises by_target l.targets) × IsTrue (rises by_attr l.attrs) × IsTrue (rises by_slot l.slots)) }
    ensures read { (s : Told) → K.told keeper.old ≡ Some s → IsOrdered s.tables
        → IfOk result (λ l. (l.blocks ≡ s.tables.blocks) × (l.objects ≡ s.tables.objects)
        × (l.targets ≡ s.tables.targets) × (l.attrs ≡ s.tables.attrs) × (l.slots ≡ s.tables.slots)) }
    ensures same { K.told keeper.new ≡ K.told keeper.old }
    ensures cause { HasCause (K.faults keeper.old) (K.faults keeper.new) (has_failed result) }
{
    let blocks = read_rows(alloc, keeper)?;
    let objects = read_rows(alloc, keeper)?;
    let targets = read_rows(alloc, keeper)?;
    let attrs = read_rows(alloc, keeper)?;
    let slots = read_rows(alloc, keeper)?;
    Ok(LastTables {
        blocks,
        objects,
        targets,
        attrs,
        slots,
    })
}

/// The rows of a keeper, beside these parameters.
pub fn read_rows_beside<K: Keeper>(
    alloc: Global,
    keeper: &mut K,
    params: Params,
) -> Result<Tables, KeeperFault>
    ensures rows { (s : Told) → K.told keeper.old ≡ Some s → IsOrdered s.tables
        → IfOk result (λ t. t ≡ record s.tables { params = Some params }) }
    ensures read { (s : Told) → K.told keeper.old ≡ Some s → IsOrdered s.tables → s.tables.params ≡ Some params
        → IfOk result (λ t. t ≡ s.tables) }
    ensures same { K.told keeper.new ≡ K.told keeper.old }
    ensures cause { HasCause (K.faults keeper.old) (K.faults keeper.new) (has_failed result) }
{
    let first = read_first(alloc, keeper)?;
    let last = read_last(alloc, keeper)?;
    Ok(Tables {
        params,
        inodes: first.inodes,
        names: first.names,
        contents: first.contents,
        inode_blocks: first.inode_blocks,
        blocks: last.blocks,
        objects: last.objects,
        targets: last.targets,
        attrs: last.attrs,
        slots: last.slots,
    })
}

/// The tables of a keeper, none where it has no parameters.
pub fn read_tables<K: Keeper>(alloc: Global, keeper: &mut K) -> Result<Option<Tables>, KeeperFault>
    ensures made { IfOk result (λ r. IfTold (K.told keeper.old) (λ t. is_some r ≡ is_some t.params)) }
    ensures tables { IfOk result (λ r. IfTold (K.told keeper.old) (λ t. IsOrdered t → IfSome r (λ u. u ≡ t))) }
    ensures same { K.told keeper.new ≡ K.told keeper.old }
    ensures cause { HasCause (K.faults keeper.old) (K.faults keeper.new) (has_failed result) }
{
    let Some(params) = keeper.params()? else {
        return Ok(None);
    };
    Ok(Some(read_rows_beside(alloc, keeper, params)?))
}
