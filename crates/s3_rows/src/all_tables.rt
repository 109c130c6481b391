use crate::{
    AttrRow, BlockRow, ContentRow, InodeBlockRow, InodeRow, NameRow, ObjectRow, Params, SlotRow,
    TargetRow,
};
use s3_base::Sequence;
use std::marker::Model;

/// The parameters and all rows, the rows of each table in the order of its key: of `inodes`, `names`, `blocks` and `objects`
/// the id, of `contents` the parent and the name's id, of `inode_blocks` the inode and the block's number, of `targets` the
/// inode, of `attrs` the inode and the name's id, and of `slots` the slot.
#[derive(Debug, Drop)]
pub struct Tables {
    pub params: Params,
    pub inodes: Sequence<InodeRow>,
    pub names: Sequence<NameRow>,
    pub contents: Sequence<ContentRow>,
    pub inode_blocks: Sequence<InodeBlockRow>,
    pub blocks: Sequence<BlockRow>,
    pub objects: Sequence<ObjectRow>,
    pub targets: Sequence<TargetRow>,
    pub attrs: Sequence<AttrRow>,
    pub slots: Sequence<SlotRow>,
}

impl Model for Tables {
    ghost use Rattle.std.specs.Prelude.{Some};
    ghost use Rattle.s3_rows.specs.Tables as tables;

    ghost Value = { tables.Tables };

    ghost view = { λ t. record {
      params = Some t.params;
      inodes = t.inodes;
      names = t.names;
      contents = t.contents;
      inode_blocks = t.inode_blocks;
      blocks = t.blocks;
      objects = t.objects;
      targets = t.targets;
      attrs = t.attrs;
      slots = t.slots;
    } };

    ghost invariant = { λ t. tables.IsOrdered (record {
      params = Some t.params;
      inodes = t.inodes;
      names = t.names;
      contents = t.contents;
      inode_blocks = t.inode_blocks;
      blocks = t.blocks;
      objects = t.objects;
      targets = t.targets;
      attrs = t.attrs;
      slots = t.slots;
    }) };
}
