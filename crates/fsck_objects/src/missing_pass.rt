//! The pass on objects.
ghost use Rattle.std.specs.Prelude.{◌≡◌, ℕ, Bool, Option, map, OnOk, IfOk};
ghost use Rattle.fsck_findings.specs.Line.{line_of};
ghost use Rattle.fsck_findings.specs.Found.{Adds, each_found};
ghost use Rattle.fsck_objects.specs.Listed.{is_in, length_in, listed_length};
ghost use Rattle.fsck_objects.specs.Listed as listed;
ghost use Rattle.fsck_objects.specs.Missing as missing;
ghost use Rattle.fsck_objects.specs.Missing.{about_block, about_object, is_of_block, repaired_objects};

use crate::listed::{Listed, Named, listed_in, named_by};
use fsck_findings::{Finding, Look, Repair, look_at_all};
use s3_devices::KeyList;
use s3_rows::{BlockRow, Change, ObjectRow, Tables};
use std::alloc::{AllocError, Global};
use table_look_ups::object_of;

/// Whether the object's key holds as many bytes as its row says.
fn is_whole(len: Option<u64>, row: &ObjectRow) -> bool
    ensures { result ≡ listed.is_whole len row.now }
{
    match (len, row.size) {
        (Some(len), Some(size)) => len == size as u64,
        _ => false,
    }
}

/// Blocks whose objects are missing.
#[derive(Clone, Copy)]
struct LostBlocks<'a> {
    tables: &'a Tables,
    listed: &'a Listed,
}

/// Whether the object of a block has a row, and is missing.
fn has_missing_object(listed: &Listed, tables: &Tables, row: &BlockRow) -> bool
    ensures { result ≡ missing.has_missing_object (length_in listed.now) tables.now row.now }
{
    match object_of(tables, row.object) {
        Some(object) => !is_whole(listed.length_of(object.id), object),
        None => false,
    }
}

impl Look<BlockRow> for LostBlocks<'_> {
    ghost about = { λ s r. about_block (length_in s.listed.now) s.tables.now r };

    fn look(&self, row: &BlockRow, repair: &mut Repair) -> Result<(), AllocError> {
        if !has_missing_object(self.listed, self.tables, row) {
            return Ok(());
        }
        repair.change(Change::DeleteBlock(row.id))
    }
}

/// Objects that blocks have, and that are missing.
#[derive(Clone, Copy)]
struct MissingObjects<'a> {
    alloc: Global,
    listed: &'a Listed,
    named: &'a Named,
}

impl Look<ObjectRow> for MissingObjects<'_> {
    ghost about = { λ s r. about_object (length_in s.listed.now) (is_in s.named.now) r };

    fn look(&self, row: &ObjectRow, repair: &mut Repair) -> Result<(), AllocError> {
        let id = row.id;
        if !self.named.contains(id) || is_whole(self.listed.length_of(id), row) {
            return Ok(());
        }
        repair.add(
            self.alloc,
            Change::DeleteObject(id),
            &Finding::ObjectMissing(id),
        )
    }
}

/// Looks at the blocks.
fn look_at_blocks(tables: &Tables, listed: &Listed, repair: &mut Repair) -> Result<(), AllocError>
    ensures { OnOk result ((length_of : ℕ → Option ℕ) → ((q : ℕ) → length_in listed.now q ≡ length_of q)
        → Adds (each_found (about_block length_of tables.now) tables.now.blocks) repair.old repair.new) }
{
    let blocks = tables.blocks.as_slice();
    look_at_all(&LostBlocks { tables, listed }, blocks, repair)
}

/// Looks at the objects.
fn look_at_objects(
    alloc: Global,
    tables: &Tables,
    listed: &Listed,
    repair: &mut Repair,
) -> Result<(), AllocError>
    ensures { OnOk result ((length_of : ℕ → Option ℕ) → ((q : ℕ) → length_in listed.now q ≡ length_of q)
        → Adds (each_found (about_object length_of (is_of_block tables.now.blocks)) tables.now.objects) repair.old repair.new) }
{
    let named = named_by(alloc, tables.blocks.as_slice())?;
    let missing = MissingObjects {
        alloc,
        listed,
        named: &named,
    };
    look_at_all(&missing, tables.objects.as_slice(), repair)
}

/// The pass on objects: those that blocks have and whose keys are not listed with their sizes go, and these blocks.
pub fn missing(alloc: Global, tables: &Tables, keys: &KeyList) -> Result<Repair, AllocError>
    ensures batch { IfOk result (λ r. r.batch ≡ (repaired_objects keys.now tables.now).changes) }
    ensures findings { IfOk result (λ r. r.findings ≡ map line_of (repaired_objects keys.now tables.now).findings) }
{
    let listed = listed_in(alloc, keys.as_slice())?;
    let mut repair = Repair::new(alloc);
    look_at_blocks(tables, &listed, &mut repair)?;
    look_at_objects(alloc, tables, &listed, &mut repair)?;
    Ok(repair)
}
