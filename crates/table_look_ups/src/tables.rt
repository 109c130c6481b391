//! Look-ups in tables.
ghost use Rattle.std.specs.Prelude.{◌≡◌, option_map};
ghost use Rattle.s3_rows.specs.Selections.{inode_at, name_at, block_at, object_at, target_at};

use crate::row_of;
use s3_rows::{BlockRow, InodeRow, NameRow, ObjectRow, Tables, TargetRow};

pub fn inode_of(tables: &Tables, id: u64) -> Option<&InodeRow>
    ensures { option_map (λ r. r.now) result ≡ inode_at tables.now id }
{
    row_of(tables.inodes.as_slice(), id)
}

pub fn name_of(tables: &Tables, id: u64) -> Option<&NameRow>
    ensures { option_map (λ r. r.now) result ≡ name_at tables.now id }
{
    row_of(tables.names.as_slice(), id)
}

pub fn block_of(tables: &Tables, id: u64) -> Option<&BlockRow>
    ensures { option_map (λ r. r.now) result ≡ block_at tables.now id }
{
    row_of(tables.blocks.as_slice(), id)
}

pub fn object_of(tables: &Tables, id: u64) -> Option<&ObjectRow>
    ensures { option_map (λ r. r.now) result ≡ object_at tables.now id }
{
    row_of(tables.objects.as_slice(), id)
}

pub fn target_of(tables: &Tables, inode: u64) -> Option<&TargetRow>
    ensures { option_map (λ r. r.now) result ≡ target_at tables.now inode }
{
    row_of(tables.targets.as_slice(), inode)
}
