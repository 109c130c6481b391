//! The steps of the pass in which entries go.
ghost use Rattle.std.specs.Prelude.{◌≡◌, ◌++◌, not, filter, map, IfOk, OnOk};
ghost use Rattle.fsck_findings.specs.Line.{line_of};
ghost use Rattle.fsck_names.specs.Entries.{delete_entries, delete_entry, dropped, drop_entries};
ghost use Rattle.fsck_names.specs.Steps.{Takes};

use crate::entry_tests::EntryTest;
use crate::look_ups::name_row;
use fsck_findings::{Finding, Repair};
use s3_base::Sequence;
use s3_rows::{Change, ContentRow, Tables};
use std::alloc::{AllocError, Global};

/// The entries that pass a test, and the others.
fn parted<E: EntryTest>(
    alloc: Global,
    tables: &Tables,
) -> Result<(Vec<ContentRow>, Vec<ContentRow>), AllocError>
    ensures { IfOk result (λ p. (p.0.items ≡ filter (E.test tables.now) tables.now.contents) × (p.1.items ≡ filter (λ r. not (E.test tables.now r)) tables.now.contents)) }
{
    let test = E::of(alloc, tables)?;
    let mut gone = Vec::new(alloc);
    let mut kept = Vec::new(alloc);
    for row in tables.contents.as_slice() {
        if test.goes(tables, row)? {
            gone.push(*row)?;
        } else {
            kept.push(*row)?;
        }
    }
    Ok((gone, kept))
}

/// What is found of an entry that goes.
fn dropped_entry(tables: &Tables, row: &ContentRow) -> Result<Finding, AllocError>
    ensures { IfOk result (λ f. f ≡ dropped tables.now row.now) }
{
    let parent = row.parent;
    match name_row(tables, row.name_id) {
        Some(named) => Ok(Finding::EntryDropped {
            parent,
            name: Some(named.name.clone()?),
        }),
        None => Ok(Finding::EntryDropped { parent, name: None }),
    }
}

/// Adds the deletes of entries, and what is found of each.
fn tell_dropped(
    alloc: Global,
    tables: &Tables,
    gone: &[ContentRow],
    repair: &mut Repair,
) -> Result<(), AllocError>
    ensures batch { OnOk result (repair.new.batch ≡ repair.old.batch ++ map delete_entry gone.now) }
    ensures findings { OnOk result (repair.new.findings ≡ repair.old.findings ++ map line_of (map (dropped tables.now) gone.now)) }
{
    for row in gone {
        let finding = dropped_entry(tables, row)?;
        repair.find(alloc, &finding)?;
        repair.change(Change::DeleteContent(row.parent, row.name_id))?;
    }
    Ok(())
}

/// All entries that pass a test go.
pub(crate) fn drop_entries<E: EntryTest>(
    alloc: Global,
    tables: &mut Tables,
    repair: &mut Repair,
) -> Result<(), AllocError>
    ensures { OnOk result (Takes (drop_entries E.test tables.old) tables.old tables.new repair.old repair.new) }
{
    let (gone, kept) = parted::<E>(alloc, tables)?;
    tell_dropped(alloc, tables, gone.as_slice(), repair)?;
    tables.contents = Sequence::from(kept);
    Ok(())
}

/// Adds the deletes of entries, which are no findings.
pub(crate) fn tell_deleted(gone: &[ContentRow], repair: &mut Repair) -> Result<(), AllocError>
    ensures batch { OnOk result (repair.new.batch ≡ repair.old.batch ++ map delete_entry gone.now) }
    ensures findings { repair.new.findings ≡ repair.old.findings }
{
    for row in gone {
        repair.change(Change::DeleteContent(row.parent, row.name_id))?;
    }
    Ok(())
}

/// All entries that pass a test go, which is no finding.
pub(crate) fn delete_entries<E: EntryTest>(
    alloc: Global,
    tables: &mut Tables,
    repair: &mut Repair,
) -> Result<(), AllocError>
    ensures { OnOk result (Takes (delete_entries E.test tables.old) tables.old tables.new repair.old repair.new) }
{
    let (gone, kept) = parted::<E>(alloc, tables)?;
    tell_deleted(gone.as_slice(), repair)?;
    tables.contents = Sequence::from(kept);
    Ok(())
}
