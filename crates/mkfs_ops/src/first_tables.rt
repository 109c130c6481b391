//! The tables of a file system as its first generation has them.
ghost use Rattle.std.specs.Prelude.{◌≡◌, ◌<◌, ◌≤◌, ◌^◌, [], ◌∷◌, IfOk};
ghost use Rattle.s3_rows.specs.Made.{made_directory};
ghost use Rattle.s3_rows.specs.Validity.{lost_and_found};
ghost use Rattle.mkfs_ops.specs.Making as making;
ghost use Rattle.mkfs_ops.specs.Making.{AreSettings, parameters_done};

use crate::Settings;
use s3_base::{ByteList, Sequence};
use s3_rows::{ContentRow, InodeRow, NameRow, Params, State, Tables, made_directory};
use std::alloc::{AllocError, Global};

/// The parameters, with the generation that is done.
pub(crate) fn parameters(settings: Settings, last_done: u64) -> Params
    requires settings { AreSettings settings }
    requires done { last_done ≤ 1 }
    ensures { result ≡ parameters_done settings last_done }
{
    Params {
        revision: 1,
        block_size: settings.block_size,
        slots: settings.slots,
        state: State::Clean,
        next_inode: 3,
        next_name: 2,
        next_block: 1,
        next_object: 1,
        generation: 1,
        last_done,
    }
}

/// The root, and `lost+found`.
fn first_inodes(alloc: Global, now: u64) -> Result<Sequence<InodeRow>, AllocError>
    requires { now < 2 ^ 62 }
    ensures { IfOk result (λ rows. rows ≡ made_directory 1 493 now ∷ made_directory 2 448 now ∷ []) }
{
    let mut rows = Sequence::new(alloc);
    rows.push(made_directory(1, 0o755, now))?;
    rows.push(made_directory(2, 0o700, now))?;
    Ok(rows)
}

/// The name of `lost+found`.
fn first_names(alloc: Global) -> Result<Sequence<NameRow>, AllocError>
    ensures { IfOk result (λ rows. rows ≡ record { id = 1; refcount = 1; name = lost_and_found } ∷ []) }
{
    let mut rows = Sequence::new(alloc);
    rows.push(NameRow {
        id: 1,
        refcount: 1,
        name: ByteList::from_slice(alloc, b"lost+found")?,
    })?;
    Ok(rows)
}

/// The entry of `lost+found` in the root.
fn first_contents(alloc: Global) -> Result<Sequence<ContentRow>, AllocError>
    ensures { IfOk result (λ rows. rows ≡ record { parent = 1; name_id = 1; inode = 2 } ∷ []) }
{
    let mut rows = Sequence::new(alloc);
    rows.push(ContentRow {
        parent: 1,
        name_id: 1,
        inode: 2,
    })?;
    Ok(rows)
}

/// All tables, of which the first generation is not done.
pub(crate) fn first_tables(alloc: Global, settings: Settings) -> Result<Tables, AllocError>
    requires { AreSettings settings }
    ensures { IfOk result (λ t. t ≡ making.first_tables settings) }
{
    let inodes = first_inodes(alloc, settings.now)?;
    let names = first_names(alloc)?;
    let contents = first_contents(alloc)?;
    Ok(Tables {
        params: parameters(settings, 0),
        inodes,
        names,
        contents,
        inode_blocks: Sequence::new(alloc),
        blocks: Sequence::new(alloc),
        objects: Sequence::new(alloc),
        targets: Sequence::new(alloc),
        attrs: Sequence::new(alloc),
        slots: Sequence::new(alloc),
    })
}
