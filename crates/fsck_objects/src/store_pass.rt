//! The pass on the store.
ghost use Rattle.std.specs.Prelude.{◌≡◌, ◌++◌, ◌≤◌, List, [], ◌∷◌, map, filter, All, length, OnOk, IfOk, IfSome};
ghost use Rattle.fsck_findings.specs.Line.{line_of};
ghost use Rattle.fsck_findings.specs.Found.{Adds, each_found};
ghost use Rattle.s3_devices.specs.Keys as texts;
ghost use Rattle.fsck_objects.specs.Store as spec;
ghost use Rattle.fsck_objects.specs.Store.{about_key, about_unused, repaired_store, stray_keys, unused_keys};

use fsck_findings::{Finding, Look, Numbered, Repair, look_at_all};
use metadata_backup::{generation_of, object_of};
use s3_base::{ByteList, Sequence};
use s3_devices::{KeyItem, KeyList, data_key};
use s3_rows::{Change, ObjectRow, Params, Tables};
use std::alloc::{AllocError, Global};

/// What goes from the store and the tables: first the keys of objects that no block has, then their rows by one batch, and then other
/// keys. The lines speak of all of it.
#[derive(Drop)]
pub struct StoreRepair {
    pub unused: Sequence<ByteList>,
    pub repair: Repair,
    pub strays: Sequence<ByteList>,
}

/// Whether no block has the object, or it was not stored whole.
fn is_unused(row: &ObjectRow) -> bool
    ensures { result ≡ spec.is_unused row.now }
{
    row.refcount == 0 || row.size.is_none()
}

/// Adds the key of an object.
fn push_key(alloc: Global, row: &ObjectRow, keys: &mut Sequence<ByteList>) -> Result<(), AllocError>
    ensures { OnOk result (keys.new ≡ keys.old ++ texts.data_key row.now.id ∷ []) }
{
    let key = data_key(alloc, row.id)?;
    keys.push(key)
}

/// The keys of the objects that no block has.
fn unused_keys(alloc: Global, rows: &[ObjectRow]) -> Result<Sequence<ByteList>, AllocError>
    ensures { IfOk result (λ l. l ≡ map (λ r. texts.data_key r.id) (filter spec.is_unused rows.now)) }
{
    let mut keys = Sequence::new(alloc);
    for row in rows {
        if is_unused(row) {
            push_key(alloc, row, &mut keys)?;
        }
    }
    Ok(keys)
}

/// Objects that no block has.
#[derive(Clone, Copy)]
struct Unused {
    alloc: Global,
}

impl Look<ObjectRow> for Unused {
    ghost about = { λ s r. about_unused r };

    fn look(&self, row: &ObjectRow, repair: &mut Repair) -> Result<(), AllocError> {
        if !is_unused(row) {
            return Ok(());
        }
        let finding = Finding::Removed(Numbered::Object, row.id);
        repair.add(self.alloc, Change::DeleteObject(row.id), &finding)
    }
}

/// Whether it is the key of a data object that has no row.
fn has_no_row(tables: &Tables, item: &KeyItem) -> bool
    ensures { result ≡ spec.has_no_row tables.now item.now }
{
    match object_of(item.key.as_slice()) {
        Some(id) => table_look_ups::object_of(tables, id).is_none(),
        None => false,
    }
}

/// Whether it is the key of a generation past the last that was stored whole.
fn is_undone(params: Params, item: &KeyItem) -> bool
    ensures { result ≡ spec.is_undone params item.now }
{
    match generation_of(item.key.as_slice()) {
        Some(number) => params.last_done < number,
        None => false,
    }
}

fn is_stray(tables: &Tables, params: Params, item: &KeyItem) -> bool
    ensures { result ≡ spec.is_stray tables.now params item.now }
{
    has_no_row(tables, item) || is_undone(params, item)
}

/// The keys that go, in order.
fn stray_keys(
    alloc: Global,
    tables: &Tables,
    params: Params,
    items: &[KeyItem],
) -> Result<Sequence<ByteList>, AllocError>
    ensures { IfOk result (λ l. l ≡ stray_keys tables.now params items.now) }
{
    let mut keys = Sequence::new(alloc);
    for item in items {
        if is_stray(tables, params, item) {
            keys.push(item.key.clone()?)?;
        }
    }
    Ok(keys)
}

/// Keys that go.
#[derive(Clone, Copy)]
struct StrayKeys<'a> {
    alloc: Global,
    tables: &'a Tables,
    params: Params,
}

impl Look<KeyItem> for StrayKeys<'_> {
    ghost about = { λ s k. about_key s.tables.now s.params k };

    fn look(&self, item: &KeyItem, repair: &mut Repair) -> Result<(), AllocError> {
        if !is_stray(self.tables, self.params, item) {
            return Ok(());
        }
        let finding = Finding::KeyRemoved(item.key.clone()?);
        repair.find(self.alloc, &finding)
    }
}

/// The changes and the lines.
fn look_at_store(
    alloc: Global,
    tables: &Tables,
    params: Params,
    keys: &KeyList,
    repair: &mut Repair,
) -> Result<(), AllocError>
    ensures { OnOk result (Adds (repaired_store keys.now tables.now params) repair.old repair.new) }
{
    look_at_all(&Unused { alloc }, tables.objects.as_slice(), repair)?;
    let strays = StrayKeys {
        alloc,
        tables,
        params,
    };
    look_at_all(&strays, keys.as_slice(), repair)
}

/// The pass on the store: objects that no block has, keys of objects without row, and generations that were not stored whole.
pub fn store(alloc: Global, tables: &Tables, keys: &KeyList) -> Result<StoreRepair, AllocError>
    ensures unused { IfOk result (λ r. r.unused ≡ unused_keys tables.now) }
    ensures strays { IfOk result (λ r. IfSome tables.now.params (λ p. r.strays ≡ stray_keys tables.now p keys.now)) }
    ensures batch { IfOk result (λ r. IfSome tables.now.params (λ p. r.repair.batch ≡ (repaired_store keys.now tables.now p).changes)) }
    ensures findings { IfOk result (λ r. IfSome tables.now.params (λ p. r.repair.findings ≡ map line_of (repaired_store keys.now tables.now p).findings)) }
{
    let params = tables.params;
    let mut repair = Repair::new(alloc);
    look_at_store(alloc, tables, params, keys, &mut repair)?;
    Ok(StoreRepair {
        unused: unused_keys(alloc, tables.objects.as_slice())?,
        repair,
        strays: stray_keys(alloc, tables, params, keys.as_slice())?,
    })
}
