//! The number that the next object gets.
ghost use Rattle.std.specs.Prelude.{◌≡◌, ℕ, ◌<◌, ◌≤◌, ◌^◌, List, Option, max, IfSome, OnOk};
ghost use Rattle.std.specs.List.{filter_map};
ghost use Rattle.fsck_findings.specs.Found.{Adds};
ghost use Rattle.fsck_findings.specs.Work.{above};
ghost use Rattle.fsck_objects.specs.Numbers.{about_next_object, numbers_of, objects_in_use, raised_objects};

use fsck_findings::{Finding, Numbered, Repair};
use metadata_backup::object_of;
use s3_devices::{KeyItem, KeyList};
use s3_rows::{BlockRow, Change, ObjectRow, Params, Tables};
use std::alloc::{AllocError, Global};

/// The object that a row or a key names.
trait NamesObject {
    ghost object: { Self → Option ℕ };

    fn object(&self) -> Option<u64>
        ensures object { result ≡ object self.now }
        ensures small { IfSome result (λ n. n < 2 ^ 62) };
}

impl NamesObject for ObjectRow {
    ghost use Rattle.std.specs.Prelude.{Some};

    ghost object = { λ r. Some r.id };

    fn object(&self) -> Option<u64> {
        Some(self.id)
    }
}

impl NamesObject for BlockRow {
    ghost use Rattle.std.specs.Prelude.{Some};

    ghost object = { λ r. Some r.object };

    fn object(&self) -> Option<u64> {
        Some(self.object)
    }
}

impl NamesObject for KeyItem {
    ghost use Rattle.metadata_backup.specs.Numbers as numbers;

    ghost object = { λ k. numbers.object_of k.key };

    fn object(&self) -> Option<u64> {
        object_of(self.key.as_slice())
    }
}

/// The least number that is above the one that is named, if any, and not below another.
fn above_one<T: NamesObject>(item: &T, free: u64) -> u64
    requires { free ≤ 2 ^ 62 }
    ensures above { result ≡ max free (above (numbers_of (T.object item.now))) }
    ensures later { free ≤ result }
    ensures small { result ≤ 2 ^ 62 }
{
    match item.object() {
        Some(id) => free.max(id + 1),
        None => free.max(1),
    }
}

/// The least number that is above all that are named, and not below another.
fn above_all<T: NamesObject>(items: &[T], least: u64) -> u64
    requires positive { 0 < least }
    requires small { least ≤ 2 ^ 62 }
    ensures above { result ≡ max least (above (filter_map T.object items.now)) }
    ensures positive { 0 < result }
    ensures small { result ≤ 2 ^ 62 }
{
    let mut free = least;
    for item in items {
        free = above_one(item, free);
    }
    free
}

/// The least number above all those of objects that have a row, that a block names, or whose keys are in the store.
fn free_object(tables: &Tables, keys: &KeyList) -> u64
    ensures above { result ≡ above (objects_in_use keys.now tables.now) }
    ensures positive { 0 < result }
    ensures small { result ≤ 2 ^ 62 }
{
    let free = above_all(tables.objects.as_slice(), 1);
    let free = above_all(tables.blocks.as_slice(), free);
    above_all(keys.as_slice(), free)
}

/// Raises the number that the next object gets.
fn raise(alloc: Global, params: Params, least: u64, repair: &mut Repair) -> Result<(), AllocError>
    requires positive { 0 < least }
    requires small { least ≤ 2 ^ 62 }
    ensures { OnOk result (Adds (about_next_object least params) repair.old repair.new) }
{
    let was = params.next_object;
    if was >= least {
        return Ok(());
    }
    let finding = Finding::Next {
        table: Numbered::Object,
        was,
        now: least,
    };
    let raised = Params {
        next_object: least,
        ..params
    };
    repair.add(alloc, Change::SetParams(raised), &finding)
}

/// Raises the number that the next object gets above all that are in use, over the parameters as the pass on rows leaves them.
pub fn raise_next_object(
    alloc: Global,
    tables: &Tables,
    keys: &KeyList,
    params: Params,
    repair: &mut Repair,
) -> Result<(), AllocError>
    ensures { OnOk result (Adds (raised_objects keys.now tables.now params) repair.old repair.new) }
{
    let least = free_object(tables, keys);
    raise(alloc, params, least, repair)
}
