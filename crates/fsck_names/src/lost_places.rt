//! Places in files whose blocks have no row, and the files that they are of.
ghost use Rattle.std.specs.Prelude.{◌≡◌, ℕ, ◌==◌, ◌&&◌, ◌||◌, false, not, filter, map, ◌++◌, IfOk, OnOk};
ghost use Rattle.s3_rows.specs.Validity.{is_regular};
ghost use Rattle.fsck_findings.specs.Line.{line_of};
ghost use Rattle.fsck_names.specs.Losses as losses;
ghost use Rattle.fsck_names.specs.Losses.{delete_place, drop_places, lost_block, loses_block};
ghost use Rattle.fsck_names.specs.Losing.{has_lost, is_in};
ghost use Rattle.fsck_names.specs.Steps.{Takes};

use crate::look_ups::block_row;
use fsck_findings::{Finding, Repair};
use s3_base::{Kind, Sequence};
use s3_rows::{Change, InodeBlockRow, InodeRow, Tables};
use std::alloc::{AllocError, Global};
use std::collections::BTreeMap;

/// Whether the block of the place has no row.
fn is_lost(tables: &Tables, row: &InodeBlockRow) -> bool
    ensures { result ≡ losses.is_lost tables.now row.now }
{
    block_row(tables, row.block).is_none()
}

/// The places that go, and the others.
fn parted_places(
    alloc: Global,
    tables: &Tables,
) -> Result<(Vec<InodeBlockRow>, Vec<InodeBlockRow>), AllocError>
    ensures { IfOk result (λ p. (p.0.items ≡ filter (losses.is_lost tables.now) tables.now.inode_blocks) × (p.1.items ≡ filter (λ r. not (losses.is_lost tables.now r)) tables.now.inode_blocks)) }
{
    let mut gone = Vec::new(alloc);
    let mut kept = Vec::new(alloc);
    for row in tables.inode_blocks.as_slice() {
        if is_lost(tables, row) {
            gone.push(*row)?;
        } else {
            kept.push(*row)?;
        }
    }
    Ok((gone, kept))
}

/// Adds the deletes of places, and a line for each.
fn tell_lost(alloc: Global, gone: &[InodeBlockRow], repair: &mut Repair) -> Result<(), AllocError>
    ensures batch { OnOk result (repair.new.batch ≡ repair.old.batch ++ map delete_place gone.now) }
    ensures findings { OnOk result (repair.new.findings ≡ repair.old.findings ++ map line_of (map lost_block gone.now)) }
{
    for row in gone {
        let finding = Finding::BlockLost {
            inode: row.inode,
            blockno: row.blockno,
        };
        repair.find(alloc, &finding)?;
        repair.change(Change::DeleteInodeBlock(row.inode, row.blockno))?;
    }
    Ok(())
}

/// All places whose blocks have no row go.
pub(crate) fn drop_places(
    alloc: Global,
    tables: &mut Tables,
    repair: &mut Repair,
) -> Result<(), AllocError>
    ensures { OnOk result (Takes (drop_places tables.old) tables.old tables.new repair.old repair.new) }
{
    let (gone, kept) = parted_places(alloc, tables)?;
    tell_lost(alloc, gone.as_slice(), repair)?;
    tables.inode_blocks = Sequence::from(kept);
    Ok(())
}

/// Inodes that have such places.
#[derive(Drop)]
struct Losing {
    inodes: BTreeMap<u64, ()>,
}

impl Losing {
    /// No inode has.
    fn new(alloc: Global) -> Self
        ensures { (q : ℕ) → is_in result q ≡ false }
    {
        Losing {
            inodes: BTreeMap::new(alloc),
        }
    }

    fn contains(&self, id: u64) -> bool
        ensures { result ≡ is_in self.now id }
    {
        self.inodes.contains_key(&id)
    }

    fn add(&mut self, id: u64) -> Result<(), AllocError>
        ensures { OnOk result ((q : ℕ) → is_in self.new q ≡ (is_in self.old q || id == q)) }
    {
        self.inodes.insert(id, ())?;
        Ok(())
    }

    /// Notes the inode of a place, if it is lost.
    fn note(&mut self, tables: &Tables, row: &InodeBlockRow) -> Result<(), AllocError>
        ensures { OnOk result ((q : ℕ) → is_in self.new q ≡ (is_in self.old q || (row.now.inode == q && losses.is_lost tables.now row.now))) }
    {
        if !is_lost(tables, row) {
            return Ok(());
        }
        self.add(row.inode)
    }
}

/// The inodes of all places that are lost.
fn noted_places(alloc: Global, tables: &Tables) -> Result<Losing, AllocError>
    ensures { IfOk result (λ l. (q : ℕ) → is_in l q ≡ has_lost tables.now tables.now.inode_blocks q) }
{
    let mut found = Losing::new(alloc);
    for row in tables.inode_blocks.as_slice() {
        found.note(tables, row)?;
    }
    Ok(found)
}

/// The files that have such places, by what was noted.
fn files_of(alloc: Global, rows: &[InodeRow], losing: &Losing) -> Result<Vec<InodeRow>, AllocError>
    ensures { IfOk result (λ v. v.items ≡ filter (λ i. is_regular i.kind && is_in losing.now i.id) rows.now) }
{
    let mut found = Vec::new(alloc);
    for row in rows {
        if row.kind == Kind::Regular && losing.contains(row.id) {
            found.push(*row)?;
        }
    }
    Ok(found)
}

/// The files that have such places.
pub(crate) fn losing_files(alloc: Global, tables: &Tables) -> Result<Vec<InodeRow>, AllocError>
    ensures { IfOk result (λ v. v.items ≡ filter (loses_block tables.now) tables.now.inodes) }
{
    let found = noted_places(alloc, tables)?;
    files_of(alloc, tables.inodes.as_slice(), &found)
}
