//! The steps that are timed.
ghost use Rattle.std.specs.Prelude.{◌≡◌, ◌+◌, ◌<◌, ◌≤◌, ◌^◌, IfOk, length};
ghost use Rattle.s3_rows.specs.declared.keeper.KeeperFault.TheVariants as keeper_faults;
ghost use Rattle.keeper_dump.specs.Dump.{dump_of};
ghost use Rattle.keeper_dump.specs.declared.fault.DumpFault.TheVariants as dump_faults;
ghost use Rattle.metadata_backup.specs.declared.restore_fault.RestoreFault.TheVariants as restore_faults;
ghost use Rattle.dump_growth.specs.declared.measures.Stop.TheVariants.{Memory, Refused};

use crate::growth::grow;
use keeper_dump::{DumpFault, dump, read_dump, read_tables};
use mem_keeper::MemKeeper;
use mem_link::MemLink;
use metadata_backup::{RestoreFault, restore};
use s3_base::{ByteList, Clock};
use s3_devices::{generation_key, keys_are_short};
use s3_rows::{Keeper, KeeperFault, Tables, made_batch};
use std::alloc::{AllocError, Global};

/// How many rows and bytes there are, and how long each step took, in nanoseconds.
#[derive(Clone, Copy, Debug)]
pub struct Measured {
    pub rows: u64,
    pub bytes: u64,
    pub commits: u64,
    pub pages: u64,
    pub dump: u64,
    pub read: u64,
    pub restore: u64,
}

/// Why nothing is measured.
#[derive(Clone, Copy, Debug, PartialEq, Eq)]
pub enum Stop {
    /// There is no memory.
    Memory,
    /// Tables were not kept, read or restored.
    Refused,
}

impl From<AllocError> for Stop {
    ghost from_gives = { λ _ r. r ≡ Memory };

    fn from(_refused: AllocError) -> Self {
        Stop::Memory
    }
}

impl From<KeeperFault> for Stop {
    ghost from_gives = { λ e r. r ≡ (elim e [ keeper_faults.Failed ↦ Refused | keeper_faults.Memory ↦ Memory ]) };

    fn from(fault: KeeperFault) -> Self {
        match fault {
            KeeperFault::Failed => Stop::Refused,
            KeeperFault::Memory => Stop::Memory,
        }
    }
}

impl From<DumpFault> for Stop {
    ghost from_gives = { λ e r. r ≡ (elim e [ dump_faults.Memory ↦ Memory | _ ↦ Refused ]) };

    fn from(fault: DumpFault) -> Self {
        match fault {
            DumpFault::Memory => Stop::Memory,
            _ => Stop::Refused,
        }
    }
}

impl From<RestoreFault> for Stop {
    ghost from_gives = { λ e r. r ≡ (elim e [ restore_faults.Memory ↦ Memory | _ ↦ Refused ]) };

    fn from(fault: RestoreFault) -> Self {
        match fault {
            RestoreFault::Memory => Stop::Memory,
            _ => Stop::Refused,
        }
    }
}

/// A keeper with the tables of so many files.
fn grown(alloc: Global, files: u64) -> Result<MemKeeper, Stop>
    requires { files ≤ 2 ^ 60 }
{
    let mut keeper = MemKeeper::new(alloc);
    let first = made_batch(alloc, 4096, 0, 0)?;
    keeper.commit(&first)?;
    grow(alloc, &mut keeper, files)?;
    Ok(keeper)
}

/// The tables of a keeper.
fn tables_of(alloc: Global, keeper: &mut MemKeeper) -> Result<Tables, Stop> {
    read_tables(alloc, keeper)?.ok_or(Stop::Refused)
}

/// A store that holds the bytes as generation 1.
fn store_of(alloc: Global, bytes: ByteList) -> Result<MemLink, Stop> {
    keys_are_short();
    let mut link = MemLink::new(alloc);
    let key = generation_key(alloc, 1)?;
    link.hold(key, bytes)?;
    Ok(link)
}

/// How many rows of files there are, whether they have one block or none.
fn count_rows(tables: &Tables) -> u64
    ensures { result ≤ length tables.now.inodes + length tables.now.names + length tables.now.contents + length tables.now.inode_blocks
        + length tables.now.blocks + length tables.now.objects }
{
    let entries = (tables.names.len() as u64).saturating_add(tables.contents.len() as u64);
    let places = (tables.inode_blocks.len() as u64).saturating_add(tables.blocks.len() as u64);
    let ends = (tables.inodes.len() as u64).saturating_add(tables.objects.len() as u64);
    entries.saturating_add(places).saturating_add(ends)
}

/// How many nanoseconds went by since a time.
fn since<C: Clock>(clock: &mut C, start: u64) -> u64
    ensures { result < 2 ^ 62 }
{
    clock.now().saturating_sub(start)
}

/// The dump of tables, and how long it took.
fn timed_dump<C: Clock>(
    alloc: Global,
    clock: &mut C,
    tables: &Tables,
) -> Result<(ByteList, u64), Stop>
    ensures { IfOk result (λ x. x.0 ≡ dump_of tables.now) }
{
    let start = clock.now();
    let bytes = dump(alloc, tables)?;
    Ok((bytes, since(clock, start)))
}

/// The tables that a dump is read as, and how long it took.
fn timed_read<C: Clock>(alloc: Global, clock: &mut C, bytes: &[u8]) -> Result<(Tables, u64), Stop>
    ensures { IfOk result (λ x. bytes.now ≡ dump_of x.0) }
{
    let start = clock.now();
    let tables = read_dump(alloc, bytes)?;
    Ok((tables, since(clock, start)))
}

/// How long it takes to restore a dump into an empty keeper.
fn timed_restore<C: Clock>(alloc: Global, clock: &mut C, bytes: ByteList) -> Result<u64, Stop> {
    let mut keeper = MemKeeper::new(alloc);
    let mut link = store_of(alloc, bytes)?;
    let start = clock.now();
    restore(alloc, &mut keeper, &mut link, 1)?;
    Ok(since(clock, start))
}

/// The tables of so many files, and how long it took to commit and to read them.
fn timed_tables<C: Clock>(
    alloc: Global,
    clock: &mut C,
    files: u64,
) -> Result<(Tables, u64, u64), Stop>
    requires { files ≤ 2 ^ 60 }
{
    let start = clock.now();
    let mut keeper = grown(alloc, files)?;
    let commits = since(clock, start);
    let start = clock.now();
    let tables = tables_of(alloc, &mut keeper)?;
    Ok((tables, commits, since(clock, start)))
}

/// Makes tables of so many files, dumps them, reads the dump, and restores it.
pub fn measure<C: Clock>(alloc: Global, clock: &mut C, files: u64) -> Result<Measured, Stop>
    requires { files ≤ 2 ^ 60 }
{
    let (tables, commits, pages) = timed_tables(alloc, clock, files)?;
    let (bytes, dump) = timed_dump(alloc, clock, &tables)?;
    drop(tables);
    let (tables, read) = timed_read(alloc, clock, bytes.as_slice())?;
    let rows = count_rows(&tables);
    drop(tables);
    let length = bytes.len() as u64;
    let restore = timed_restore(alloc, clock, bytes)?;
    Ok(Measured {
        rows,
        bytes: length,
        commits,
        pages,
        dump,
        read,
        restore,
    })
}
