//! Entries of directories in a keeper.
ghost use Rattle.std.specs.Prelude.{◌≡◌, IfOk, option_and_then};
ghost use Rattle.s3_base.specs.Faults.{HasCause};
ghost use Rattle.s3_rows.specs.Tables.{Tables};
ghost use Rattle.s3_rows.specs.Selections.{inode_at};
ghost use Rattle.s3_rows.specs.Told.{IfTold, has_failed};
ghost use Rattle.s3_rows.specs.Validity.{IsValid, HasUniqueNames};
ghost use Rattle.tree_rows.specs.Listings.{entry_named};
ghost use Rattle.dir_ops.specs.Entries.{is_taken};

use s3_base::ByteList;
use s3_rows::{ContentRow, InodeRow, Keeper, KeeperFault};

/// The entry of a directory that has this name.
pub fn find_entry<K: Keeper>(
    keeper: &mut K,
    parent: u64,
    name: &ByteList,
) -> Result<Option<ContentRow>, KeeperFault>
    ensures found { IfOk result (λ c. IfTold (K.told keeper.old) (λ t. IsValid t → HasUniqueNames t → c ≡ entry_named t parent name.now)) }
    ensures same { K.told keeper.new ≡ K.told keeper.old }
    ensures cause { HasCause (K.faults keeper.old) (K.faults keeper.new) (has_failed result) }
{
    match keeper.name_id(name)? {
        Some(id) => keeper.entry(parent, id),
        None => Ok(None),
    }
}

/// The row of the inode that an entry names.
pub fn find_child<K: Keeper>(
    keeper: &mut K,
    entry: Option<ContentRow>,
) -> Result<Option<InodeRow>, KeeperFault>
    ensures row { IfOk result (λ r. IfTold (K.told keeper.old) (λ t. r ≡ option_and_then (λ c. inode_at t c.inode) entry)) }
    ensures same { K.told keeper.new ≡ K.told keeper.old }
    ensures cause { HasCause (K.faults keeper.old) (K.faults keeper.new) (has_failed result) }
{
    match entry {
        Some(entry) => keeper.inode(entry.inode),
        None => Ok(None),
    }
}

/// The directory has an entry of this name.
pub fn has_entry<K: Keeper>(
    keeper: &mut K,
    parent: u64,
    name: &ByteList,
) -> Result<bool, KeeperFault>
    ensures found { IfOk result (λ b. IfTold (K.told keeper.old) (λ t. IsValid t → HasUniqueNames t → b ≡ is_taken t parent name.now)) }
    ensures same { K.told keeper.new ≡ K.told keeper.old }
    ensures cause { HasCause (K.faults keeper.old) (K.faults keeper.new) (has_failed result) }
{
    Ok(find_entry(keeper, parent, name)?.is_some())
}
