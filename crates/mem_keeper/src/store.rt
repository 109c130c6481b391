//! The tables as maps of rows by their keys.
ghost use Rattle.std.specs.Prelude.{◌≡◌, None, IfOk, OnOk, All};
ghost use Rattle.std.specs.Option.{ForSome};
ghost use Rattle.s3_rows.specs.Rows.{IsParameters};
ghost use Rattle.s3_rows.specs.Tables.{no_tables};
ghost use Rattle.s3_rows.specs.Batches.{after_change};
ghost use Rattle.s3_rows.specs.Ranges.{HasRanges};
ghost use Rattle.mem_keeper.specs.Store.{IsMaps, KeepsAll, HasPlace, IsFitChange, tables_of, tables_in};

use crate::keyed::Keyed;
use crate::table::{drop_place, hold_place, put_in, put_row, remove_row, table_of, take_from};
use s3_rows::{
    AttrRow, BlockRow, Change, ContentRow, InodeBlockRow, InodeRow, NameRow, ObjectRow, Params,
    SlotRow, Tables, TargetRow,
};
use std::alloc::{AllocError, Global};
use std::collections::BTreeMap;

/// The parameters, and the rows of each table by their keys.
#[derive(Debug, Drop)]
pub(crate) struct Maps {
    pub params: Option<Params>,
    pub inodes: BTreeMap<u64, Option<InodeRow>>,
    pub names: NameMap,
    pub contents: BTreeMap<(u64, u64), Option<ContentRow>>,
    pub inode_blocks: BTreeMap<(u64, u64), Option<InodeBlockRow>>,
    pub blocks: BTreeMap<u64, Option<BlockRow>>,
    pub objects: BTreeMap<u64, Option<ObjectRow>>,
    pub targets: BTreeMap<u64, Option<TargetRow>>,
    pub attrs: BTreeMap<(u64, u64), Option<AttrRow>>,
    pub slots: BTreeMap<u32, Option<SlotRow>>,
}

/// The names by their ids.
#[derive(Debug, Drop)]
pub(crate) struct NameMap {
    pub map: BTreeMap<u64, Option<NameRow>>,
}

/// The tables that were given, until a call needs the maps, and then the maps.
#[derive(Debug, Drop)]
pub(crate) struct Store {
    pub given: Option<Tables>,
    pub maps: Maps,
}

/// Rows of names, blocks and entries that a batch has replaced or deleted.
#[derive(Debug, Drop)]
pub(crate) struct Gone {
    pub names: Vec<NameRow>,
    pub blocks: Vec<BlockRow>,
    pub contents: Vec<ContentRow>,
}

impl Maps {
    /// Nothing at all, which takes no memory.
    fn new(alloc: Global) -> Self
        ensures tables { tables_in result ≡ no_tables }
        ensures maps { IsMaps result }
    {
        Maps {
            params: None,
            inodes: BTreeMap::new(alloc),
            names: NameMap {
                map: BTreeMap::new(alloc),
            },
            contents: BTreeMap::new(alloc),
            inode_blocks: BTreeMap::new(alloc),
            blocks: BTreeMap::new(alloc),
            objects: BTreeMap::new(alloc),
            targets: BTreeMap::new(alloc),
            attrs: BTreeMap::new(alloc),
            slots: BTreeMap::new(alloc),
        }
    }
}

impl Store {
    /// Nothing at all, which takes no memory.
    pub(crate) fn new(alloc: Global) -> Self
        ensures tables { tables_of result ≡ no_tables }
        ensures maps { IsMaps result.maps }
    {
        Store {
            given: None,
            maps: Maps::new(alloc),
        }
    }

    /// These tables, kept as they are.
    pub(crate) fn of(alloc: Global, tables: Tables) -> Self
        ensures tables { tables_of result ≡ tables }
        ensures maps { IsMaps result.maps }
    {
        Store {
            given: Some(tables),
            maps: Maps::new(alloc),
        }
    }
}

/// Maps of copies of all rows.
fn maps_of(alloc: Global, tables: &Tables) -> Result<Maps, AllocError>
    ensures tables { IfOk result (λ m. tables_in m ≡ tables.now) }
    ensures maps { IfOk result IsMaps }
{
    Ok(Maps {
        params: Some(tables.params),
        inodes: table_of(alloc, tables.inodes.as_slice())?,
        names: NameMap {
            map: table_of(alloc, tables.names.as_slice())?,
        },
        contents: table_of(alloc, tables.contents.as_slice())?,
        inode_blocks: table_of(alloc, tables.inode_blocks.as_slice())?,
        blocks: table_of(alloc, tables.blocks.as_slice())?,
        objects: table_of(alloc, tables.objects.as_slice())?,
        targets: table_of(alloc, tables.targets.as_slice())?,
        attrs: table_of(alloc, tables.attrs.as_slice())?,
        slots: table_of(alloc, tables.slots.as_slice())?,
    })
}

/// Makes the maps, where only the tables that were given stand.
pub(crate) fn settle(store: &mut Store, alloc: Global) -> Result<(), AllocError>
    requires { IsMaps store.old.maps }
    ensures same { tables_of store.new ≡ tables_of store.old }
    ensures maps { IsMaps store.new.maps }
    ensures given { OnOk result (store.new.given ≡ None) }
    ensures tables { OnOk result (tables_in store.new.maps ≡ tables_of store.old) }
{
    if let Some(tables) = &store.given {
        store.maps = maps_of(alloc, tables)?;
    }
    store.given = None;
    Ok(())
}

// Says that rows keep the ranges of their types.
fn tell_ranges<R: Keyed>(rows: &[R])
    ensures { All R.fits rows.now }
{
    for row in rows {
        let _ = row.key();
    }
}

// Says that parameters keep the ranges of their type.
fn tell_params(params: &Params)
    ensures { IsParameters params.now }
{
    let _revision = params.revision;
}

/// Says that all rows keep the ranges of their types.
pub(crate) fn tell_all_ranges(tables: &Tables)
    ensures { HasRanges tables.now }
{
    tell_params(&tables.params);
    tell_ranges(tables.inodes.as_slice());
    tell_ranges(tables.names.as_slice());
    tell_ranges(tables.contents.as_slice());
    tell_ranges(tables.inode_blocks.as_slice());
    tell_ranges(tables.blocks.as_slice());
    tell_ranges(tables.objects.as_slice());
    tell_ranges(tables.targets.as_slice());
    tell_ranges(tables.attrs.as_slice());
    tell_ranges(tables.slots.as_slice());
}

/// Adds a row that a change took out to the others, where there is room.
fn keep<R: Keyed>(gone: &mut Vec<R>, row: Option<R>) {
    if let Some(row) = row {
        let _ = gone.push(row);
    }
}

/// Makes a change. Rows of names, blocks and entries that go are added to `gone`.
pub(crate) fn apply_change(maps: &mut Maps, gone: &mut Gone, change: Change)
    requires maps { IsMaps maps.old }
    requires place { HasPlace maps.old change }
    ensures tables { tables_in maps.new ≡ after_change change (tables_in maps.old) }
    ensures maps { IsMaps maps.new }
    ensures kept { KeepsAll maps.old maps.new }
    ensures fits { IsFitChange change }
{
    match change {
        Change::PutInode(row) => put_row(&mut maps.inodes, row),
        Change::DeleteInode(id) => remove_row(&mut maps.inodes, id),
        Change::PutName(row) => keep(&mut gone.names, put_in(&mut maps.names.map, row)),
        Change::DeleteName(id) => keep(&mut gone.names, take_from(&mut maps.names.map, id)),
        Change::PutContent(row) => keep(&mut gone.contents, put_in(&mut maps.contents, row)),
        Change::DeleteContent(parent, name_id) => {
            keep(
                &mut gone.contents,
                take_from(&mut maps.contents, (parent, name_id)),
            )
        }
        Change::PutInodeBlock(row) => put_row(&mut maps.inode_blocks, row),
        Change::DeleteInodeBlock(inode, blockno) => {
            remove_row(&mut maps.inode_blocks, (inode, blockno))
        }
        Change::PutBlock(row) => keep(&mut gone.blocks, put_in(&mut maps.blocks, row)),
        Change::DeleteBlock(id) => keep(&mut gone.blocks, take_from(&mut maps.blocks, id)),
        Change::PutObject(row) => put_row(&mut maps.objects, row),
        Change::DeleteObject(id) => remove_row(&mut maps.objects, id),
        Change::PutTarget(row) => put_row(&mut maps.targets, row),
        Change::DeleteTarget(inode) => remove_row(&mut maps.targets, inode),
        Change::PutAttr(row) => put_row(&mut maps.attrs, row),
        Change::DeleteAttr(inode, name_id) => remove_row(&mut maps.attrs, (inode, name_id)),
        Change::PutSlot(row) => put_row(&mut maps.slots, row),
        Change::DeleteSlot(slot) => remove_row(&mut maps.slots, slot),
        Change::SetParams(params) => {
            let _revision = params.revision;
            maps.params = Some(params)
        }
    }
}

/// Holds the place of the row that the change puts.
pub(crate) fn hold_change(maps: &mut Maps, change: &Change) -> Result<(), AllocError>
    requires { IsMaps maps.old }
    ensures maps { IsMaps maps.new }
    ensures tables { tables_in maps.new ≡ tables_in maps.old }
    ensures held { OnOk result (HasPlace maps.new change.now) }
    ensures kept { KeepsAll maps.old maps.new }
{
    match change {
        Change::PutInode(row) => hold_place(&mut maps.inodes, row.key()),
        Change::PutName(row) => hold_place(&mut maps.names.map, row.key()),
        Change::PutContent(row) => hold_place(&mut maps.contents, row.key()),
        Change::PutInodeBlock(row) => hold_place(&mut maps.inode_blocks, row.key()),
        Change::PutBlock(row) => hold_place(&mut maps.blocks, row.key()),
        Change::PutObject(row) => hold_place(&mut maps.objects, row.key()),
        Change::PutTarget(row) => hold_place(&mut maps.targets, row.key()),
        Change::PutAttr(row) => hold_place(&mut maps.attrs, row.key()),
        Change::PutSlot(row) => hold_place(&mut maps.slots, row.key()),
        _ => Ok(()),
    }
}

/// Lets go of the place that the change names, where it has no row.
pub(crate) fn drop_change(maps: &mut Maps, change: &Change)
    requires { IsMaps maps.old }
    ensures maps { IsMaps maps.new }
    ensures tables { tables_in maps.new ≡ tables_in maps.old }
{
    match change {
        Change::PutInode(row) => drop_place(&mut maps.inodes, row.key()),
        Change::DeleteInode(id) => drop_place(&mut maps.inodes, *id),
        Change::PutName(row) => drop_place(&mut maps.names.map, row.key()),
        Change::DeleteName(id) => drop_place(&mut maps.names.map, *id),
        Change::PutContent(row) => drop_place(&mut maps.contents, row.key()),
        Change::DeleteContent(parent, name_id) => {
            drop_place(&mut maps.contents, (*parent, *name_id))
        }
        Change::PutInodeBlock(row) => drop_place(&mut maps.inode_blocks, row.key()),
        Change::DeleteInodeBlock(inode, blockno) => {
            drop_place(&mut maps.inode_blocks, (*inode, *blockno))
        }
        Change::PutBlock(row) => drop_place(&mut maps.blocks, row.key()),
        Change::DeleteBlock(id) => drop_place(&mut maps.blocks, *id),
        Change::PutObject(row) => drop_place(&mut maps.objects, row.key()),
        Change::DeleteObject(id) => drop_place(&mut maps.objects, *id),
        Change::PutTarget(row) => drop_place(&mut maps.targets, row.key()),
        Change::DeleteTarget(inode) => drop_place(&mut maps.targets, *inode),
        Change::PutAttr(row) => drop_place(&mut maps.attrs, row.key()),
        Change::DeleteAttr(inode, name_id) => drop_place(&mut maps.attrs, (*inode, *name_id)),
        Change::PutSlot(row) => drop_place(&mut maps.slots, row.key()),
        Change::DeleteSlot(slot) => drop_place(&mut maps.slots, *slot),
        Change::SetParams(_) => {}
    }
}
