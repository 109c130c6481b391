//! A new inode and its entry in a directory, whatever its kind.
ghost use Rattle.std.specs.Prelude.{◌≡◌, ◌<◌, ◌^◌, ◌++◌, [], ◌∷◌, None, IsTrue, IfOk, OnOk, option_map};
ghost use Rattle.s3_base.specs.Faults.{HasCause};
ghost use Rattle.plain_tree.specs.Checks.{name_check, mode_check};
ghost use Rattle.s3_rows.specs.declared.change.Change.TheVariants as changes;
ghost use Rattle.s3_rows.specs.Rows.{IsId};
ghost use Rattle.s3_rows.specs.Tables.{IsOrdered};
ghost use Rattle.s3_rows.specs.Told.{IfTold, has_failed};
ghost use Rattle.s3_rows.specs.Validity.{HasUniqueNames};
ghost use Rattle.op_frames.specs.declared.reply.Reply.TheVariants as replies;
ghost use Rattle.tree_rows.specs.Attrs.{attr_of_row};
ghost use Rattle.ref_counts.specs.Names.{raised};
ghost use Rattle.ref_counts.specs.Plans.{HasFitReply, is_fit};
ghost use Rattle.row_steps.specs.RowChanges.{creation, new_file_row, touched_row, with_drawn};
ghost use Rattle.dir_ops.specs.Plans.{entry_plan};

use op_frames::Reply;
use ref_counts::{Plan, attr_of, name_up};
use s3_base::{ByteList, Kind, Sequence};
use s3_rows::{Batch, Change, ContentRow, InodeRow, Keeper, KeeperFault, Params};
use std::alloc::{AllocError, Global};

/// What a new inode has, and the time of its making.
#[derive(Clone, Copy, Debug)]
pub struct NewInode {
    pub mode: u16,
    pub uid: u32,
    pub gid: u32,
    pub now: u64,
}

/// The row of an empty inode of a kind, under the next number, which one entry names.
pub fn new_row(params: &Params, kind: Kind, new: &NewInode) -> InodeRow
    requires mode { mode_check new.now.mode ≡ None }
    requires now { new.now.now < 2 ^ 62 }
    requires next { params.now.next_inode < 2 ^ 62 }
    ensures { result ≡ record (new_file_row params.now.next_inode new.entry.now.mode new.entry.now.uid new.entry.now.gid new.entry.now.now) { kind = kind } }
{
    InodeRow {
        id: params.next_inode,
        kind,
        mode: new.mode,
        uid: new.uid,
        gid: new.gid,
        mtime: new.now,
        ctime: new.now,
        refcount: 1,
        size: 0,
        locked: false,
    }
}

/// Adds the changes that put a new inode's row and its entry in a directory, which is touched.
fn add_entry(
    batch: &mut Batch,
    directory: &InodeRow,
    name_id: u64,
    row: &InodeRow,
    now: u64,
) -> Result<(), AllocError>
    requires id { IsId name_id }
    requires now { now < 2 ^ 62 }
    ensures { OnOk result (batch.new ≡ batch.old ++ changes.PutContent (record { parent = directory.now.id; name_id = name_id; inode = row.now.id }) ∷ changes.PutInode row.now ∷ changes.PutInode (touched_row now directory.now) ∷ []) }
{
    batch.push(Change::PutContent(ContentRow {
        parent: directory.id,
        name_id,
        inode: row.id,
    }))?;
    batch.push(Change::PutInode(*row))?;
    batch.push(Change::PutInode(InodeRow {
        mtime: now,
        ctime: now,
        ..*directory
    }))?;
    Ok(())
}

/// The batch of a new inode, whose number is the next one, with an entry in a directory, which is touched at the time `now`. None
/// where the name is worn.
pub fn new_entry<K: Keeper>(
    alloc: Global,
    keeper: &mut K,
    directory: &InodeRow,
    params: &Params,
    name: &ByteList,
    row: &InodeRow,
    now: u64,
) -> Result<Option<Batch>, KeeperFault>
    requires name { name_check name.now ≡ None }
    requires next { params.now.next_inode < 2 ^ 62 }
    requires now { now < 2 ^ 62 }
    ensures batch { IfOk result (λ b. IfTold (K.told keeper.old) (λ t. IsOrdered t → HasUniqueNames t
        → b ≡ option_map (λ more. creation params.now directory.now more row.now now) (raised (with_drawn params.now t) name.now))) }
    ensures same { K.told keeper.new ≡ K.told keeper.old }
    ensures cause { HasCause (K.faults keeper.old) (K.faults keeper.new) (has_failed result) }
{
    let mut batch = Batch::new(alloc);
    batch.push(Change::SetParams(Params {
        next_inode: params.next_inode + 1,
        ..*params
    }))?;
    let Some(name_id) = name_up(keeper, &mut batch, name)? else {
        return Ok(None);
    };
    add_entry(&mut batch, directory, name_id, row, now)?;
    Ok(Some(batch))
}

/// The batch is committed, with this reply; or the name is worn.
pub fn with_reply(alloc: Global, batch: Option<Batch>, reply: Reply) -> Plan
    requires { IsTrue (is_fit reply) }
    ensures plan { result ≡ entry_plan batch reply }
    ensures fit { HasFitReply result }
{
    match batch {
        Some(batch) => Plan::Commit {
            batch,
            reply,
            drop: Sequence::new(alloc),
        },
        None => Plan::Worn,
    }
}

/// The batch is committed, and the reply has the attributes of the row; or the name is worn.
pub fn attributed(alloc: Global, batch: Option<Batch>, row: &InodeRow) -> Plan
    ensures plan { result ≡ entry_plan batch (replies.Attr (attr_of_row row.now)) }
    ensures fit { HasFitReply result }
{
    with_reply(alloc, batch, Reply::Attr(attr_of(row)))
}
