//! The batch that puts tables in place of others.
ghost use Rattle.std.specs.Prelude.{◌≡◌, ◌++◌, map, IfOk, OnOk};
ghost use Rattle.metadata_backup.specs.Replacing as replacing;
ghost use Rattle.metadata_backup.specs.Replacing.{replacement, inode_changes, name_changes, content_changes, inode_block_changes, block_changes, object_changes, target_changes, attr_changes, slot_changes};

use crate::changed_rows::{delete_rows, put_rows};
use s3_base::Sequence;
use s3_rows::{
    AttrRow, Batch, BlockRow, Change, ContentRow, InodeBlockRow, InodeRow, NameRow, ObjectRow,
    Params, SlotRow, Tables, TargetRow,
};
use std::alloc::{AllocError, Global};

fn delete_first(batch: &mut Batch, tables: &Tables) -> Result<(), AllocError>
    ensures { OnOk result (batch.new ≡ batch.old ++ replacing.first_deletes tables.now) }
{
    delete_rows(batch, &tables.inodes)?;
    delete_rows(batch, &tables.names)?;
    delete_rows(batch, &tables.contents)?;
    delete_rows(batch, &tables.inode_blocks)
}

fn delete_last(batch: &mut Batch, tables: &Tables) -> Result<(), AllocError>
    ensures { OnOk result (batch.new ≡ batch.old ++ replacing.last_deletes tables.now) }
{
    delete_rows(batch, &tables.blocks)?;
    delete_rows(batch, &tables.objects)?;
    delete_rows(batch, &tables.targets)?;
    delete_rows(batch, &tables.attrs)?;
    delete_rows(batch, &tables.slots)
}

fn put_first(
    batch: &mut Batch,
    inodes: Sequence<InodeRow>,
    names: Sequence<NameRow>,
    contents: Sequence<ContentRow>,
    inode_blocks: Sequence<InodeBlockRow>,
) -> Result<(), AllocError>
    ensures { OnOk result (batch.new ≡ batch.old ++ (map inode_changes.put_of inodes ++ (map name_changes.put_of names
        ++ (map content_changes.put_of contents ++ map inode_block_changes.put_of inode_blocks)))) }
{
    put_rows(batch, inodes)?;
    put_rows(batch, names)?;
    put_rows(batch, contents)?;
    put_rows(batch, inode_blocks)
}

fn put_last(
    batch: &mut Batch,
    blocks: Sequence<BlockRow>,
    objects: Sequence<ObjectRow>,
    targets: Sequence<TargetRow>,
    attrs: Sequence<AttrRow>,
    slots: Sequence<SlotRow>,
) -> Result<(), AllocError>
    ensures { OnOk result (batch.new ≡ batch.old ++ (map block_changes.put_of blocks ++ (map object_changes.put_of objects
        ++ (map target_changes.put_of targets ++ (map attr_changes.put_of attrs ++ map slot_changes.put_of slots))))) }
{
    put_rows(batch, blocks)?;
    put_rows(batch, objects)?;
    put_rows(batch, targets)?;
    put_rows(batch, attrs)?;
    put_rows(batch, slots)
}

fn put_all(batch: &mut Batch, tables: Tables) -> Result<(), AllocError>
    ensures { OnOk result (batch.new ≡ batch.old ++ (replacing.first_puts tables ++ replacing.last_puts tables)) }
{
    put_first(
        batch,
        tables.inodes,
        tables.names,
        tables.contents,
        tables.inode_blocks,
    )?;
    put_last(
        batch,
        tables.blocks,
        tables.objects,
        tables.targets,
        tables.attrs,
        tables.slots,
    )
}

/// The batch that deletes all rows of the old tables and puts those of the new ones, with these parameters.
#[tactic(auto, unfolding(crate::specs::Replacing::replacement))]
pub(crate) fn replacing_batch(
    alloc: Global,
    old: &Tables,
    new: Tables,
    params: Params,
) -> Result<Batch, AllocError>
    ensures { IfOk result (λ b. b ≡ replacement old.now new params) }
{
    let mut batch = Batch::new(alloc);
    delete_first(&mut batch, old)?;
    delete_last(&mut batch, old)?;
    put_all(&mut batch, new)?;
    batch.push(Change::SetParams(params))?;
    Ok(batch)
}
