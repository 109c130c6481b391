//! The pass on counts.
ghost use Rattle.std.specs.Prelude.{◌≡◌, ℕ, ◌==◌, map, OnOk, IfOk, if◌then◌else◌};
ghost use Rattle.s3_rows.specs.Counts.{listed_inode_count, listed_name_count, listed_block_count};
ghost use Rattle.fsck_findings.specs.Line.{line_of};
ghost use Rattle.fsck_findings.specs.Found.{Adds, each_found};
ghost use Rattle.fsck_tables.specs.Counts.{about_inode, about_name, about_block, about_object, kept_object_count, repaired_counts};
ghost use Rattle.fsck_tables.specs.Tally.{tally_at};

use crate::counted::{AttrName, EntryInode, EntryName, KeptObject, PlacedBlock};
use crate::counting::{BlockCounts, InodeCounts, NameCounts, ObjectCounts};
use crate::tally::{Tally, tally_rows};
use fsck_findings::{Repair, look_at_all};
use s3_rows::Tables;
use std::alloc::{AllocError, Global};

/// How often entries name each inode.
fn inode_tally(alloc: Global, tables: &Tables) -> Result<Tally, AllocError>
    ensures { IfOk result (λ n. (id : ℕ) → (if id == 1 then 1 else tally_at n id) ≡ listed_inode_count tables.now id) }
{
    let mut tally = Tally::new(alloc);
    tally_rows(&EntryInode, tables.contents.as_slice(), &mut tally)?;
    Ok(tally)
}

/// How often entries and attributes have each name.
fn name_tally(alloc: Global, tables: &Tables) -> Result<Tally, AllocError>
    ensures { IfOk result (λ n. (id : ℕ) → tally_at n id ≡ listed_name_count tables.now id) }
{
    let mut tally = Tally::new(alloc);
    tally_rows(&EntryName, tables.contents.as_slice(), &mut tally)?;
    tally_rows(&AttrName, tables.attrs.as_slice(), &mut tally)?;
    Ok(tally)
}

/// How often places in files have each block.
fn block_tally(alloc: Global, tables: &Tables) -> Result<Tally, AllocError>
    ensures { IfOk result (λ n. (id : ℕ) → tally_at n id ≡ listed_block_count tables.now id) }
{
    let mut tally = Tally::new(alloc);
    tally_rows(&PlacedBlock, tables.inode_blocks.as_slice(), &mut tally)?;
    Ok(tally)
}

/// How often blocks that stay have each object.
fn object_tally(alloc: Global, tables: &Tables, places: &Tally) -> Result<Tally, AllocError>
    ensures { IfOk result (λ n. ((id : ℕ) → tally_at places.now id ≡ listed_block_count tables.now id)
        → (id : ℕ) → tally_at n id ≡ kept_object_count tables.now id) }
{
    let mut tally = Tally::new(alloc);
    tally_rows(&KeptObject { places }, tables.blocks.as_slice(), &mut tally)?;
    Ok(tally)
}

fn count_inodes(alloc: Global, tables: &Tables, repair: &mut Repair) -> Result<(), AllocError>
    ensures { OnOk result (Adds (each_found (about_inode (listed_inode_count tables.now)) tables.now.inodes) repair.old repair.new) }
{
    let tally = inode_tally(alloc, tables)?;
    let counts = InodeCounts {
        alloc,
        tally: &tally,
    };
    look_at_all(&counts, tables.inodes.as_slice(), repair)
}

fn count_names(alloc: Global, tables: &Tables, repair: &mut Repair) -> Result<(), AllocError>
    ensures { OnOk result (Adds (each_found (about_name (listed_name_count tables.now)) tables.now.names) repair.old repair.new) }
{
    let tally = name_tally(alloc, tables)?;
    let counts = NameCounts {
        alloc,
        tally: &tally,
    };
    look_at_all(&counts, tables.names.as_slice(), repair)
}

fn count_blocks(
    alloc: Global,
    tables: &Tables,
    places: &Tally,
    repair: &mut Repair,
) -> Result<(), AllocError>
    ensures { OnOk result (((id : ℕ) → tally_at places.now id ≡ listed_block_count tables.now id)
        → Adds (each_found (about_block (listed_block_count tables.now)) tables.now.blocks) repair.old repair.new) }
{
    let counts = BlockCounts {
        alloc,
        tally: places,
    };
    look_at_all(&counts, tables.blocks.as_slice(), repair)
}

fn count_objects(
    alloc: Global,
    tables: &Tables,
    places: &Tally,
    repair: &mut Repair,
) -> Result<(), AllocError>
    ensures { OnOk result (((id : ℕ) → tally_at places.now id ≡ listed_block_count tables.now id)
        → Adds (each_found (about_object (kept_object_count tables.now)) tables.now.objects) repair.old repair.new) }
{
    let tally = object_tally(alloc, tables, places)?;
    let counts = ObjectCounts {
        alloc,
        tally: &tally,
    };
    look_at_all(&counts, tables.objects.as_slice(), repair)
}

/// The pass on counts: of inodes, names, blocks and objects.
pub fn counts(alloc: Global, tables: &Tables) -> Result<Repair, AllocError>
    ensures batch { IfOk result (λ r. r.batch ≡ (repaired_counts tables.now).changes) }
    ensures findings { IfOk result (λ r. r.findings ≡ map line_of (repaired_counts tables.now).findings) }
{
    let mut repair = Repair::new(alloc);
    count_inodes(alloc, tables, &mut repair)?;
    count_names(alloc, tables, &mut repair)?;
    let places = block_tally(alloc, tables)?;
    count_blocks(alloc, tables, &places, &mut repair)?;
    count_objects(alloc, tables, &places, &mut repair)?;
    Ok(repair)
}
