//! Rows by their owners and the bytes of their names.
ghost use Rattle.std.specs.Prelude.{◌≡◌, IsTrue, IfOk, OnOk, IfSome, false, option_map, Option, All};
ghost use Rattle.s3_rows.specs.declared.change.Change.{Change};
ghost use Rattle.s3_rows.specs.Keyed.{pair_cmp};
ghost use Rattle.s3_rows.specs.Tables.{by_name};
ghost use Rattle.mem_keeper.specs.Filed.{entry_put, attr_put, place_cmp, keeps_bytes, IsPlaced, IsFiled, AllFiled, IsStanding, StayFiled, PutsFiled, IsMoved};
ghost use Rattle.mem_keeper.specs.Table.{rows_of, IsTable, KeepsPlaces};

use crate::keyed::Keyed;
use crate::look_ups::{Indexed, has_bytes};
use crate::store::NameMap;
use crate::table::{drop_key, hold_key, row_in};
use row_lists::NameTable;
use s3_base::ByteList;
use s3_rows::{AttrRow, Change, ContentRow};
use std::alloc::{AllocError, Global};
use std::collections::BTreeMap;
use std::ops::Bound;

/// A row of an owner, with the number of its name, which make its key.
pub(crate) trait Owned: Keyed<Key = (u64, u64)> {
    ghost put_by: { Change → Option Self };

    // The row that a change puts.
    fn put_by(change: &Change) -> Option<&Self>
        ensures { option_map (λ r. r.now) result ≡ put_by change.now };

    // The key of the row that a change deletes.
    fn deleted_by(change: &Change) -> Option<(u64, u64)>;
}

impl Owned for ContentRow {
    ghost put_by = { entry_put };

    fn put_by(change: &Change) -> Option<&ContentRow> {
        match change {
            Change::PutContent(row) => Some(row),
            _ => None,
        }
    }

    fn deleted_by(change: &Change) -> Option<(u64, u64)> {
        match change {
            Change::DeleteContent(parent, name_id) => Some((*parent, *name_id)),
            _ => None,
        }
    }
}

impl Owned for AttrRow {
    ghost put_by = { attr_put };

    fn put_by(change: &Change) -> Option<&AttrRow> {
        match change {
            Change::PutAttr(row) => Some(row),
            _ => None,
        }
    }

    fn deleted_by(change: &Change) -> Option<(u64, u64)> {
        match change {
            Change::DeleteAttr(inode, name_id) => Some((*inode, *name_id)),
            _ => None,
        }
    }
}

/// An owner, the bytes of a name, and the number of the name.
pub(crate) type Place = ((u64, ByteList), u64);

/// The keys of rows by their owners and the bytes of their names, and the greatest number of a name that they have. It may
/// not stand yet, and may list keys of rows that are gone.
#[derive(Debug, Drop)]
pub(crate) struct Filing {
    pub places: BTreeMap<Place, ()>,
    pub used: u64,
    pub stand: bool,
}

/// What is known of a batch before it is made: whether it leaves the names of the rows that are filed, and where those are
/// that it deletes.
#[derive(Debug, Drop)]
pub(crate) struct Plan {
    pub keeps: bool,
    pub stale: Vec<Place>,
}

impl Filing {
    /// A filing that does not stand yet, which takes no memory.
    pub(crate) fn new(alloc: Global) -> Self
        ensures { result.stand ≡ false }
    {
        Filing {
            places: BTreeMap::new(alloc),
            used: 0,
            stand: false,
        }
    }
}

// Lists a key under the bytes of its name, where that has a row.
fn hold_key_of(
    places: &mut BTreeMap<Place, ()>,
    names: &NameMap,
    key: (u64, u64),
) -> Result<(), AllocError>
    requires { IsTable by_name names.now.map.entries }
    ensures kept { KeepsPlaces place_cmp places.old places.new }
    ensures placed { OnOk result (IsPlaced places.new (rows_of names.now.map.entries) key) }
{
    match names.name_row(key.1) {
        Some(row) => hold_key(places, ((key.0, row.name.clone()?), key.1)),
        None => Ok(()),
    }
}

// Files the row of a key.
fn file_key(filing: &mut Filing, names: &NameMap, key: (u64, u64)) -> Result<(), AllocError>
    requires { IsTable by_name names.now.map.entries }
    ensures kept { StayFiled filing.old filing.new }
    ensures filed { OnOk result (IsFiled filing.new (rows_of names.now.map.entries) key) }
    ensures same { filing.new.stand ≡ filing.old.stand }
{
    filing.used = filing.used.max(key.1);
    hold_key_of(&mut filing.places, names, key)
}

// Files a row that is there.
fn file_held<R: Owned>(
    filing: &mut Filing,
    names: &NameMap,
    held: &Option<R>,
) -> Result<(), AllocError>
    requires { IsTable by_name names.now.map.entries }
    ensures kept { StayFiled filing.old filing.new }
    ensures filed { OnOk result (IfSome held.now (λ r. IsFiled filing.new (rows_of names.now.map.entries) (R.key r))) }
    ensures same { filing.new.stand ≡ filing.old.stand }
{
    match held {
        Some(row) => file_key(filing, names, row.key()),
        None => Ok(()),
    }
}

// Files all rows of a table.
fn file_all<R: Owned>(
    filing: &mut Filing,
    table: &BTreeMap<(u64, u64), Option<R>>,
    names: &NameMap,
) -> Result<(), AllocError>
    requires { IsTable by_name names.now.map.entries }
    ensures filed { OnOk result (AllFiled R.key filing.new (rows_of names.now.map.entries) (rows_of table.now.entries)) }
    ensures same { filing.new.stand ≡ filing.old.stand }
{
    let mut entries = table.range((
        Bound::<(u64, u64)>::Unbounded,
        Bound::<(u64, u64)>::Unbounded,
    ));
    while let Some((_, held)) = entries.next() {
        file_held(filing, names, held)?;
    }
    Ok(())
}

/// Files all rows of a table, where the filing does not stand.
pub(crate) fn build<R: Owned>(
    filing: &mut Filing,
    alloc: Global,
    table: &BTreeMap<(u64, u64), Option<R>>,
    names: &NameMap,
) -> Result<(), AllocError>
    requires names { IsTable by_name names.now.map.entries }
    requires standing { IsStanding R.key filing.old (rows_of names.now.map.entries) (rows_of table.now.entries) }
    ensures ok { OnOk result (AllFiled R.key filing.new (rows_of names.now.map.entries) (rows_of table.now.entries)) }
    ensures standing { IsStanding R.key filing.new (rows_of names.now.map.entries) (rows_of table.now.entries) }
{
    if filing.stand {
        return Ok(());
    }
    *filing = Filing::new(alloc);
    file_all(filing, table, names)?;
    filing.stand = true;
    Ok(())
}

// Whether the change gives no name that may be used other bytes.
fn keeps_bytes_of(used: u64, names: &NameMap, change: &Change) -> bool
    requires { IsTable by_name names.now.map.entries }
    ensures { result ≡ keeps_bytes used (rows_of names.now.map.entries) change.now }
{
    match change {
        Change::PutName(row) => used < row.id || has_bytes(&names.map, row.id, row.bytes()),
        _ => true,
    }
}

// Whether the changes give no name that may be used other bytes.
fn all_keep_bytes(used: u64, names: &NameMap, changes: &[Change]) -> bool
    requires { IsTable by_name names.now.map.entries }
    ensures { IsTrue result → All (λ c. IsTrue (keeps_bytes used (rows_of names.now.map.entries) c)) changes.now }
{
    for change in changes {
        if !keeps_bytes_of(used, names, change) {
            return false;
        }
    }
    true
}

// Adds the place of a key under the bytes of its name, where that has a row.
fn push_place(places: &mut Vec<Place>, names: &NameMap, key: (u64, u64)) -> Result<(), AllocError>
    requires { IsTable by_name names.now.map.entries }
{
    if let Some(row) = names.name_row(key.1) {
        places.push(((key.0, row.name.clone()?), key.1))?;
    }
    Ok(())
}

// The places of the rows that changes delete.
fn places_deleted<R: Owned>(
    alloc: Global,
    names: &NameMap,
    changes: &[Change],
) -> Result<Vec<Place>, AllocError>
    requires { IsTable by_name names.now.map.entries }
{
    let mut places = Vec::new(alloc);
    for change in changes {
        if let Some(key) = R::deleted_by(change) {
            push_place(&mut places, names, key)?;
        }
    }
    Ok(places)
}

/// What has to be known of changes before they are made.
pub(crate) fn plan_of<R: Owned>(
    filing: &Filing,
    alloc: Global,
    names: &NameMap,
    changes: &[Change],
) -> Result<Plan, AllocError>
    requires { IsTable by_name names.now.map.entries }
    ensures { IfOk result (λ p. IsTrue p.keeps → All (λ c. IsTrue (keeps_bytes filing.now.used (rows_of names.now.map.entries) c)) changes.now) }
{
    if !filing.stand {
        return Ok(Plan {
            keeps: false,
            stale: Vec::new(alloc),
        });
    }
    Ok(Plan {
        keeps: all_keep_bytes(filing.used, names, changes),
        stale: places_deleted::<R>(alloc, names, changes)?,
    })
}

// Files the row that a change puts.
fn file_put<R: Owned>(
    filing: &mut Filing,
    names: &NameMap,
    change: &Change,
) -> Result<(), AllocError>
    requires { IsTable by_name names.now.map.entries }
    ensures kept { StayFiled filing.old filing.new }
    ensures filed { OnOk result (IfSome (R.put_by change.now) (λ r. IsFiled filing.new (rows_of names.now.map.entries) (R.key r))) }
    ensures same { filing.new.stand ≡ filing.old.stand }
{
    match R::put_by(change) {
        Some(row) => file_key(filing, names, row.key()),
        None => Ok(()),
    }
}

// Files the rows that changes put.
fn file_puts<R: Owned>(
    filing: &mut Filing,
    names: &NameMap,
    changes: &[Change],
) -> Result<(), AllocError>
    requires { IsTable by_name names.now.map.entries }
    ensures kept { StayFiled filing.old filing.new }
    ensures filed { OnOk result (PutsFiled R.key R.put_by filing.new (rows_of names.now.map.entries) changes.now) }
    ensures same { filing.new.stand ≡ filing.old.stand }
{
    for change in changes {
        file_put::<R>(filing, names, change)?;
    }
    Ok(())
}

// Takes out a place whose row is gone.
fn drop_place_of<R: Owned>(
    filing: &mut Filing,
    table: &BTreeMap<(u64, u64), Option<R>>,
    names: &NameMap,
    place: Place,
)
    requires table { IsTable (record { compare = pair_cmp; key = R.key }) table.now.entries }
    requires filed { AllFiled R.key filing.old (rows_of names.now.map.entries) (rows_of table.now.entries) }
    ensures filed { AllFiled R.key filing.new (rows_of names.now.map.entries) (rows_of table.now.entries) }
{
    match row_in(table, (place.0.0, place.1)) {
        Some(_) => {}
        None => drop_key(&mut filing.places, place),
    }
}

// Takes out the places whose rows are gone.
fn drop_places_of<R: Owned>(
    filing: &mut Filing,
    table: &BTreeMap<(u64, u64), Option<R>>,
    names: &NameMap,
    mut places: Vec<Place>,
)
    requires table { IsTable (record { compare = pair_cmp; key = R.key }) table.now.entries }
    requires filed { AllFiled R.key filing.old (rows_of names.now.map.entries) (rows_of table.now.entries) }
    ensures filed { AllFiled R.key filing.new (rows_of names.now.map.entries) (rows_of table.now.entries) }
{
    while let Some(place) = places.pop() {
        drop_place_of(filing, table, names, place);
    }
}

/// Files the rows that changes have put, and takes out those that they have deleted. Where a name that may be used has other
/// bytes now, or there is no memory, the filing stands no more.
pub(crate) fn follow<R: Owned>(
    filing: &mut Filing,
    table: &BTreeMap<(u64, u64), Option<R>>,
    names: &NameMap,
    changes: &[Change],
    plan: Plan,
)
    requires table { IsTable (record { compare = pair_cmp; key = R.key }) table.now.entries }
    requires names { IsTable by_name names.now.map.entries }
    requires moved { IsTrue filing.old.stand → IsTrue plan.keeps → IsMoved R.key R.put_by filing.old (rows_of names.now.map.entries) changes.now (rows_of table.now.entries) }
    ensures { IsStanding R.key filing.new (rows_of names.now.map.entries) (rows_of table.now.entries) }
{
    if !filing.stand {
        return;
    }
    if !plan.keeps || file_puts::<R>(filing, names, changes).is_err() {
        filing.places.clear();
        filing.stand = false;
        return;
    }
    drop_places_of(filing, table, names, plan.stale);
}
