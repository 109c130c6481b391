//! Blocks that are not sound, or like others.
ghost use Rattle.std.specs.Prelude.{◌≡◌, List, ◌∷◌, [], OnOk, IsTrue, is_some};
ghost use Rattle.std.specs.List.{list_any};
ghost use Rattle.s3_rows.specs.Rows.{Block};
ghost use Rattle.s3_rows.specs.Validity.{have_one_digest, have_one_object};
ghost use Rattle.fsck_findings.specs.Found.{Adds};
ghost use Rattle.fsck_tables.specs.Rows as rows;
ghost use Rattle.fsck_tables.specs.Rows.{about_blocks};
ghost use Rattle.fsck_tables.specs.Blocks.{AreMarks, IsLooked};

use fsck_findings::{Finding, Numbered, Repair};
use s3_rows::{BlockRow, Change, Digest, Params, Tables};
use std::alloc::{AllocError, Global};
use std::collections::BTreeMap;
use table_look_ups::object_of;

/// Whether the block's object is there with the same size, which is no greater than a block.
fn is_sound(tables: &Tables, params: Params, row: &BlockRow) -> bool
    ensures { result ≡ rows.is_sound_block tables.now params row.now }
{
    match object_of(tables, row.object) {
        Some(object) => object.size == Some(row.size) && row.size <= params.block_size,
        None => false,
    }
}

/// The digests and the objects of the blocks that stay so far.
#[derive(Drop)]
struct Marks {
    digests: BTreeMap<Digest, ()>,
    objects: BTreeMap<u64, ()>,
}

impl Marks {
    /// Whether one of the blocks has the digest or the object of this one.
    fn have(&self, row: &BlockRow) -> bool
        ensures { (stay : List Block) → AreMarks stay self.now → result ≡ rows.is_like_one_of stay row.now }
    {
        self.digests.contains_key(&row.digest) || self.objects.contains_key(&row.object)
    }

    /// Notes a block that stays.
    fn add(&mut self, row: &BlockRow) -> Result<(), AllocError>
        ensures { OnOk result ((stay : List Block) → AreMarks stay self.old → AreMarks (row.now ∷ stay) self.new) }
    {
        self.digests.insert(row.digest, ())?;
        self.objects.insert(row.object, ())?;
        Ok(())
    }
}

/// Looks at a block behind those that stay so far.
fn look_at_block(
    alloc: Global,
    sound: bool,
    row: &BlockRow,
    marks: &mut Marks,
    repair: &mut Repair,
) -> Result<(), AllocError>
    ensures { OnOk result ((stay : List Block) → AreMarks stay marks.old → IsLooked sound stay row.now marks.new repair.old repair.new) }
{
    if sound && !marks.have(row) {
        return marks.add(row);
    }
    let finding = Finding::Removed(Numbered::Block, row.id);
    repair.add(alloc, Change::DeleteBlock(row.id), &finding)
}

/// Looks at the blocks in order.
pub(crate) fn look_at_blocks(
    alloc: Global,
    tables: &Tables,
    params: Params,
    repair: &mut Repair,
) -> Result<(), AllocError>
    ensures { OnOk result (Adds (about_blocks tables.now params [] tables.now.blocks) repair.old repair.new) }
{
    let mut marks = Marks {
        digests: BTreeMap::new(alloc),
        objects: BTreeMap::new(alloc),
    };
    for row in tables.blocks.as_slice() {
        let sound = is_sound(tables, params, row);
        look_at_block(alloc, sound, row, &mut marks, repair)?;
    }
    Ok(())
}
