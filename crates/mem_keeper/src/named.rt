//! Pages of rows with the bytes of their names.
ghost use Rattle.std.specs.Prelude.{◌≡◌, ◌++◌, ◌+◌, ◌-◌, ◌^◌, ◌<◌, ◌≤◌, ◌&&◌, ◌==◌, ℕ, List, take, filter, All, IsTrue, IfOk, IfSome, OnOk};
ghost use Rattle.std.specs.List.{cons_option, filter_map, list_all};
ghost use Rattle.std.specs.Ordering.{is_eq};
ghost use Rattle.std.specs.Vec.{vec_len};
ghost use Rattle.s3_rows.specs.Keyed.{pair_cmp, rows_past, sorted_by};
ghost use Rattle.s3_rows.specs.Tables.{by_name};
ghost use Rattle.s3_rows.specs.Selections.{bytes_cmp};
ghost use Rattle.s3_rows.specs.Told.{has_short_name, is_page};
ghost use Rattle.row_lists.specs.Listing.{by_bytes, with_name};
ghost use Rattle.mem_keeper.specs.Filed.{found, named_as, apart, last_name, AllFiled};
ghost use Rattle.mem_keeper.specs.Table.{rows_of, IsTable};

use crate::filing::{Filing, Owned, Place};
use crate::keyed::Keyed;
use crate::look_ups::same_bytes;
use crate::store::NameMap;
use crate::table::row_in;
use row_lists::NameTable;
use s3_base::{ByteList, Sequence};
use s3_rows::{AttrRow, ContentRow, NamedAttr, NamedEntry};
use std::alloc::{AllocError, Global};
use std::collections::BTreeMap;
use std::ops::Bound;

/// An item that has the bytes of a name.
pub(crate) trait Named: Drop {
    ghost name_of: { Self → List ℕ };

    fn name(&self) -> &ByteList
        ensures { result.now ≡ name_of self.now };
}

/// What a row and the bytes of its name make.
pub(crate) trait NamedFrom<R>: Named {
    ghost made: { R → List ℕ → Self };

    fn make(row: &R, name: &ByteList) -> Result<Self, AllocError>
        ensures { IfOk result (λ x. x ≡ made row.now name.now) };

    ghost keeps_name: { (r : R) (name : List ℕ) → Self.name_of (made r name) ≡ name };
}

impl Named for NamedEntry {
    ghost name_of = { λ e. e.name };

    fn name(&self) -> &ByteList {
        &self.name
    }
}

impl Named for NamedAttr {
    ghost name_of = { λ a. a.name };

    fn name(&self) -> &ByteList {
        &self.name
    }
}

impl NamedFrom<ContentRow> for NamedEntry {
    ghost use Rattle.std.specs.Prelude.{refl};

    ghost made = { λ r name. record { row = r; name = name } };

    ghost keeps_name = { λ r name. refl };

    fn make(row: &ContentRow, name: &ByteList) -> Result<Self, AllocError> {
        Ok(NamedEntry {
            row: *row,
            name: name.clone()?,
        })
    }
}

impl NamedFrom<AttrRow> for NamedAttr {
    ghost use Rattle.std.specs.Prelude.{refl};

    ghost made = { λ r name. record { row = r; name = name } };

    ghost keeps_name = { λ r name. refl };

    fn make(row: &AttrRow, name: &ByteList) -> Result<Self, AllocError> {
        Ok(NamedAttr {
            row: row.clone()?,
            name: name.clone()?,
        })
    }
}

// What a row makes with the bytes of its name, where these are the ones that it is filed under.
fn item_of<R: Owned, T: NamedFrom<R>>(
    names: &NameMap,
    row: &R,
    bytes: &ByteList,
) -> Result<Option<T>, AllocError>
    requires { IsTable by_name names.now.map.entries }
    ensures item { IfOk result (λ x. x ≡ named_as T.name_of bytes.now (with_name (λ r. (R.key r).1) T.made (rows_of names.now.map.entries) row.now)) }
    ensures short { IfOk result (λ x. IfSome x (λ y. IsTrue (has_short_name (T.name_of y)))) }
{
    let named = match names.name_row(row.key().1) {
        Some(named) => named,
        None => return Ok(None),
    };
    if same_bytes(bytes.as_slice(), named.name.as_slice()) {
        Ok(Some(T::make(row, &named.name)?))
    } else {
        Ok(None)
    }
}

// What a place gives: nothing where its row is gone, or has a name of other bytes.
fn item_at<R: Owned, T: NamedFrom<R>>(
    table: &BTreeMap<(u64, u64), Option<R>>,
    names: &NameMap,
    place: &Place,
) -> Result<Option<T>, AllocError>
    requires table { IsTable (record { compare = pair_cmp; key = R.key }) table.now.entries }
    requires names { IsTable by_name names.now.map.entries }
    ensures item { IfOk result (λ x. x ≡ found (record { compare = pair_cmp; key = R.key }) T.made T.name_of (rows_of names.now.map.entries) (rows_of table.now.entries) place.now) }
    ensures short { IfOk result (λ x. IfSome x (λ y. IsTrue (has_short_name (T.name_of y)))) }
{
    match row_in(table, (place.0.0, place.1)) {
        Some(row) => item_of(names, row, &place.0.1),
        None => Ok(None),
    }
}

// Whether a name is that of the last item, or where there is none the one after which they begin.
fn is_last<T: Named>(items: &[T], after: &ByteList, name: &ByteList) -> bool
    ensures { result ≡ is_eq (bytes_cmp (last_name T.name_of after.now items.now) name.now) }
{
    match items.last() {
        Some(item) => same_bytes(item.name().as_slice(), name.as_slice()),
        None => same_bytes(after.as_slice(), name.as_slice()),
    }
}

// Adds an item that is there, unless it has the name of the last.
fn push_apart<T: Named>(
    items: &mut Vec<T>,
    after: &ByteList,
    item: Option<T>,
) -> Result<(), AllocError>
    ensures items { OnOk result ((rest : List T) → items.new.items ++ apart T.name_of (last_name T.name_of after.now items.new.items) rest ≡ items.old.items ++ apart T.name_of (last_name T.name_of after.now items.old.items) (cons_option item rest)) }
    ensures len { OnOk result (vec_len items.new ≤ vec_len items.old + 1) }
    ensures short { OnOk result (IfSome item (λ x. IsTrue (has_short_name (T.name_of x))) → IsTrue (list_all (λ x. has_short_name (T.name_of x)) items.old.items) → IsTrue (list_all (λ x. has_short_name (T.name_of x)) items.new.items)) }
{
    let item = match item {
        Some(item) => item,
        None => return Ok(()),
    };
    if !is_last(items.as_slice(), after, item.name()) {
        items.push(item)?;
    }
    Ok(())
}

// What the places of an owner past a name give, at most `max` items, of those with one name the first.
fn walk<R: Owned, T: NamedFrom<R>>(
    alloc: Global,
    filing: &Filing,
    table: &BTreeMap<(u64, u64), Option<R>>,
    names: &NameMap,
    owner: u64,
    after: &ByteList,
    max: usize,
) -> Result<Vec<T>, AllocError>
    requires table { IsTable (record { compare = pair_cmp; key = R.key }) table.now.entries }
    requires names { IsTable by_name names.now.map.entries }
    requires filed { AllFiled R.key filing.now (rows_of names.now.map.entries) (rows_of table.now.entries) }
    requires low { owner < 2 ^ 64 - 1 }
    ensures items { IfOk result (λ v. v.items ≡ take max (rows_past (by_bytes T.name_of) after.now (sorted_by (by_bytes T.name_of) (filter_map (with_name (λ r. (R.key r).1) T.made (rows_of names.now.map.entries)) (filter (λ r. (R.key r).0 == owner) (rows_of table.now.entries)))))) }
    ensures short { IfOk result (λ v. IsTrue (list_all (λ x. has_short_name (T.name_of x)) v.items)) }
{
    let mut items = Vec::new(alloc);
    let from = Bound::Excluded(((owner, after.clone()?), u64::MAX));
    let to = Bound::Excluded(((owner + 1, ByteList::new(alloc)), 0));
    let mut places = filing.places.range((from, to));
    while items.len() < max {
        match places.next() {
            Some((place, _)) => push_apart(&mut items, after, item_at(table, names, place)?)?,
            None => break,
        }
    }
    Ok(items)
}

/// The first `max` rows of an owner whose names come after `after`, with the bytes of their names and in the order of these.
/// A row whose name has no row is left out, and of several of the same bytes only the one with the least name id is given.
pub(crate) fn page_of<R: Owned, T: NamedFrom<R>>(
    alloc: Global,
    filing: &Filing,
    table: &BTreeMap<(u64, u64), Option<R>>,
    names: &NameMap,
    owner: u64,
    after: &ByteList,
    max: u32,
) -> Result<Sequence<T>, AllocError>
    requires table { IsTable (record { compare = pair_cmp; key = R.key }) table.now.entries }
    requires names { IsTable by_name names.now.map.entries }
    requires filed { AllFiled R.key filing.now (rows_of names.now.map.entries) (rows_of table.now.entries) }
    requires low { All (λ r. (R.key r).0 < 2 ^ 64 - 1) (rows_of table.now.entries) }
    ensures rows { IfOk result (λ l. l ≡ take max (rows_past (by_bytes T.name_of) after.now (sorted_by (by_bytes T.name_of) (filter_map (with_name (λ r. (R.key r).1) T.made (rows_of names.now.map.entries)) (filter (λ r. (R.key r).0 == owner) (rows_of table.now.entries)))))) }
    ensures page { IfOk result (λ l. IsTrue (is_page (by_bytes T.name_of) after.now max l && list_all (λ x. has_short_name (T.name_of x)) l)) }
{
    if owner == u64::MAX {
        return Ok(Sequence::new(alloc));
    }
    let items = walk(alloc, filing, table, names, owner, after, max as usize)?;
    Ok(Sequence::from(items))
}
