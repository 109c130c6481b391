//! The core of a replay: a file system that is made for it, whose rows and objects stand in memory.
ghost use Rattle.std.specs.Prelude.{◌≡◌, ◌<◌, ◌≤◌, ◌*◌, ◌^◌, ℕ, IsTrue, IfOk};
ghost use Rattle.op_frames.specs.Operations.{is_op};
ghost use Rattle.op_frames.specs.Answers.{has_short_data};
ghost use Rattle.op_frames.specs.Replies.{is_reply};
ghost use Rattle.op_frames.specs.Replay.{input_limit};
ghost use Rattle.plain_tree.specs.Tree.{Tree, made_tree};
ghost use Rattle.s3_rows.specs.Made.{made_tables};
ghost use Rattle.volume_core.specs.Answers.{answered};
ghost use Rattle.offline_tool.specs.Serving.{IsBegun, IsServed, Serves, made_store};

use byte_steps::operations_on_names_keep_bytes;
use core_model::tables_have_the_bytes_of_their_tree;
use mkfs_ops::{MakeFault, Settings, make};
use op_frames::{Op, Reply};
use std::alloc::{AllocError, Global};
use steady_keeper::SteadyKeeper;
use steady_link::SteadyLink;
use tree_laws::names_of_inodes_grow_by_one;
use tree_limits::{worn_blocks_are_full, worn_copies_are_full, worn_names_are_full};
use tree_rows::made_tables_are_the_made_tree;
use volume_core::{OpenFault, RowCore, made_tables_are_ready};

/// A core over a keeper in memory, with an object store in memory. Neither ever fails.
#[derive(Drop)]
pub struct Served {
    core: RowCore<SteadyKeeper>,
    link: SteadyLink,
}

/// A keeper and an object store in memory, which never fail.
#[derive(Drop)]
struct Devices {
    keeper: SteadyKeeper,
    link: SteadyLink,
}

/// A file system that was just made, at time 0: its tables, and its first generation in the store. Only a lack of memory refuses it.
fn made_devices(alloc: Global, block_size: u32, slots: u32) -> Result<Devices, AllocError>
    requires least { 4096 ≤ block_size }
    requires greatest { block_size ≤ 10485760 }
    requires slots { slots ≤ 65536 }
    requires disk { slots * block_size ≤ 2 ^ 32 }
    ensures tables { IfOk result (λ d. d.keeper.tables ≡ made_tables block_size slots 0) }
    ensures store { IfOk result (λ d. d.link ≡ made_store block_size slots) }
{
    let mut keeper = SteadyKeeper::new(alloc);
    let mut link = SteadyLink::new(alloc);
    let settings = Settings {
        block_size,
        slots,
        now: 0,
    };
    match make(alloc, &mut keeper, &mut link, &settings) {
        Ok(()) => Ok(Devices { keeper, link }),
        Err(MakeFault::Memory) => Err(AllocError),
        Err(MakeFault::Exists) => unreachable!(),
        Err(MakeFault::Keeper | MakeFault::Link) => unreachable!(),
    }
}

/// Makes a file system with blocks of so many bytes and so many slots at time 0, over no tables and an empty store, and opens it.
/// Only a lack of memory refuses it.
pub fn open_made(alloc: Global, block_size: u32, slots: u32) -> Result<Served, AllocError>
    requires least { 4096 ≤ block_size }
    requires greatest { block_size ≤ 10485760 }
    requires slots { slots ≤ 65536 }
    requires disk { slots * block_size ≤ 2 ^ 32 }
    ensures begun { IfOk result (λ served. IsBegun served (made_tree block_size 0)) }
    ensures store { IfOk result (λ served. served.link ≡ made_store block_size slots) }
{
    made_tables_are_ready();
    made_tables_are_the_made_tree();
    tables_have_the_bytes_of_their_tree();
    names_of_inodes_grow_by_one();
    let Devices { keeper, link } = made_devices(alloc, block_size, slots)?;
    match RowCore::open(alloc, keeper) {
        Ok(core) => Ok(Served { core, link }),
        Err((_, OpenFault::Memory)) => Err(AllocError),
        Err((_, OpenFault::NoFileSystem | OpenFault::Unclean | OpenFault::Keeper)) => {
            unreachable!()
        }
    }
}

/// Answers an operation whose frame lies in an input of at most 2^40 bytes. No fault but want of memory is answered, nothing is lost, and
/// no number is worn; a count only where copies of trees have brought it to its end.
pub fn answer(served: &mut Served, pass: u64, op: &Op, now: u64) -> Reply
    requires op { IsTrue (is_op op.now) }
    requires now { now < 2 ^ 62 }
    ensures answer { (place behind : ℕ) (whole : Tree) → Serves served.old place whole → place < behind → place ≤ input_limit
        → IsServed served.old served.new behind whole (answered pass op.now now result) }
    ensures reply { IsTrue (is_reply result) }
    ensures short { IsTrue (has_short_data result) }
{
    operations_on_names_keep_bytes();
    names_of_inodes_grow_by_one();
    worn_names_are_full();
    worn_copies_are_full();
    worn_blocks_are_full();
    let Served { core, link } = served;
    core.answer(pass, op, now, link)
}
