//! The plan of a page of a directory.
ghost use Rattle.std.specs.Prelude.{◌≡◌, ℕ, List, [], ◌∷◌, map, IsTrue, IfOk};
ghost use Rattle.s3_base.specs.Faults.{HasCause};
ghost use Rattle.op_frames.specs.declared.operation.Op.TheVariants as ops;
ghost use Rattle.op_frames.specs.declared.reply.Reply.TheVariants as replies;
ghost use Rattle.op_frames.specs.Answers.{has_short_data};
ghost use Rattle.plain_tree.specs.Tree.{Tree};
ghost use Rattle.plain_tree.specs.Checks.{first_failure};
ghost use Rattle.s3_rows.specs.Selections.{inode_at};
ghost use Rattle.s3_rows.specs.Told.{IfTold, has_failed};
ghost use Rattle.s3_rows.specs.Validity.{IsValid, HasUniqueNames};
ghost use Rattle.tree_rows.specs.Listings.{kind_of_found, entry_of_row};
ghost use Rattle.tree_rows.specs.Shapes.{Represents};
ghost use Rattle.op_checks.specs.Checks.{Checks};
ghost use Rattle.op_checks.specs.Rows.{row_check, directory_row_check};
ghost use Rattle.ref_counts.specs.Plans.{IsPlanOf, HasFitReply, is_fit};

use op_checks::{check_directory, check_node, check_page};
use op_frames::{DirEntry, DirEntryList, Reply};
use ref_counts::{Plan, answer};
use s3_base::{ByteList, Errno, Kind};
use s3_rows::{InodeRow, Keeper, KeeperFault, NamedEntry};
use std::alloc::Global;

/// The kind of an inode; a regular file where it has no row.
fn kind_of(found: Option<InodeRow>) -> Kind
    ensures { result ≡ kind_of_found found }
{
    match found {
        Some(row) => row.kind,
        None => Kind::Regular,
    }
}

/// An entry as it is listed.
fn listed_entry<K: Keeper>(keeper: &mut K, entry: &NamedEntry) -> Result<DirEntry, KeeperFault>
    ensures entry { IfOk result (λ e. IfTold (K.told keeper.old) (λ t. e ≡ entry_of_row t entry.now)) }
    ensures name { IfOk result (λ e. e.name ≡ entry.now.name) }
    ensures same { K.told keeper.new ≡ K.told keeper.old }
    ensures cause { HasCause (K.faults keeper.old) (K.faults keeper.new) (has_failed result) }
{
    let inode = entry.row.inode;
    let kind = kind_of(keeper.inode(inode)?);
    Ok(DirEntry {
        inode,
        kind,
        name: entry.name.clone()?,
    })
}

/// Entries as they are listed.
fn listed_entries<K: Keeper>(
    alloc: Global,
    keeper: &mut K,
    entries: &[NamedEntry],
) -> Result<DirEntryList, KeeperFault>
    ensures entries { IfOk result (λ l. IfTold (K.told keeper.old) (λ t. l ≡ map (entry_of_row t) entries.now)) }
    ensures names { IfOk result (λ l. map (λ e. e.name) l ≡ map (λ e. e.name) entries.now) }
    ensures same { K.told keeper.new ≡ K.told keeper.old }
    ensures cause { HasCause (K.faults keeper.old) (K.faults keeper.new) (has_failed result) }
{
    let mut listed = DirEntryList::new(alloc);
    for entry in entries {
        listed.push(listed_entry(keeper, entry)?)?;
    }
    Ok(listed)
}

/// A page of a directory.
fn page_reply(found: Option<InodeRow>, page: DirEntryList) -> Result<Reply, Errno>
    requires short { IsTrue (has_short_data (replies.Entries page)) }
    ensures check { Checks result (first_failure (row_check found ∷ directory_row_check found ∷ [])) }
    ensures reply { IfOk result (λ reply. reply ≡ replies.Entries page) }
    ensures fit { IfOk result (λ reply. IsTrue (is_fit reply)) }
{
    let directory = check_node(found)?;
    check_directory(&directory)?;
    Ok(Reply::Entries(page))
}

/// The plan of a Readdir: at most `max` entries past the name `after`.
pub fn plan_readdir<K: Keeper>(
    alloc: Global,
    keeper: &mut K,
    inode: u64,
    after: &ByteList,
    max: u16,
) -> Result<Plan, KeeperFault>
    ensures plan { IfOk result (λ p. IfTold (K.told keeper.old) (λ t. IsValid t → (whole : Tree) (pass now : ℕ) → Represents t whole → IsPlanOf t whole pass (ops.Readdir inode after.now max) now p)) }
    ensures same { K.told keeper.new ≡ K.told keeper.old }
    ensures cause { HasCause (K.faults keeper.old) (K.faults keeper.new) (has_failed result) }
    ensures fit { IfOk result HasFitReply }
{
    if let Err(errno) = check_page(max) {
        return Ok(Plan::Refuse(errno));
    }
    let found = keeper.inode(inode)?;
    let listed = keeper.entries(inode, after, max as u32)?;
    let page = listed_entries(alloc, keeper, listed.as_slice())?;
    Ok(answer(alloc, page_reply(found, page)))
}
