//! What the walk of a copy has made so far.
ghost use Rattle.std.specs.Prelude.{◌≡◌, ◌<◌, ◌^◌, ◌++◌, ◌∷◌, [], List, ℕ, length, ◌==◌, ◌&&◌, None, Some, IfOk, OnOk, option_and_then, if◌then◌else◌};
ghost use Rattle.std.specs.BTreeMap.{get};
ghost use Rattle.std.specs.Ordering.{nat_cmp};
ghost use Rattle.s3_base.specs.Faults.{HasCause};
ghost use Rattle.plain_tree.specs.Checks.{attribute_name_check};
ghost use Rattle.s3_rows.specs.declared.change.Change.{Change};
ghost use Rattle.s3_rows.specs.Tables.{IsOrdered};
ghost use Rattle.s3_rows.specs.Told.{IfTold, has_failed};
ghost use Rattle.ref_counts.specs.Names.{StaysUnique};
ghost use Rattle.tree_copy.specs.CopiedNames.{AreAttrNames};
ghost use Rattle.tree_copy.specs.CopyWalks.{IsNoted, IsVisited, is_id, is_kept, is_met_once, spot_of, visit_batch};

use crate::entries::{CopySpot, copy_visit};
use crate::walk::Level;
use s3_base::{ByteList, Kind, LIMIT};
use s3_rows::{Batch, InodeRow, Keeper, KeeperFault, Params};
use std::alloc::{AllocError, Global};
use std::collections::BTreeMap;

/// The batch of names, none where a name or a number is worn; the inodes seen in their order, and the numbers of the copies of those
/// that may be met again.
#[derive(Debug, Drop)]
pub struct Copied {
    pub(crate) names: Option<Batch>,
    pub(crate) seen: Vec<u64>,
    pub(crate) numbers: BTreeMap<u64, u64>,
}

/// An inode may have the number.
fn is_id(number: u64) -> bool
    ensures { result ≡ is_id number }
{
    0 < number && number < LIMIT
}

/// No further entry names what is a directory, or counts one link.
fn is_met_once(row: &InodeRow) -> bool
    ensures { result ≡ is_met_once row.now }
{
    matches!(row.kind, Kind::Directory) || row.refcount == 1
}

/// The batch with a visit more. None where a name, a number or a count is worn.
fn with_visit<K: Keeper>(
    alloc: Global,
    keeper: &mut K,
    batch: Batch,
    row: &InodeRow,
    name: &ByteList,
    spot: CopySpot,
) -> Result<Option<Batch>, KeeperFault>
    requires { spot.now < 2 ^ 62 }
    ensures copied { IfOk result (λ b. IfTold (K.told keeper.old) (λ t. IsOrdered t → StaysUnique batch t → AreAttrNames t row.now.id → attribute_name_check name.now ≡ None
        → b ≡ visit_batch spot row.now name.now t batch)) }
    ensures unique { IfOk result (λ b. IfTold (K.told keeper.old) (λ t. IsOrdered t → StaysUnique batch t → AreAttrNames t row.now.id → attribute_name_check name.now ≡ None
        → (cs : List Change) → b ≡ Some cs → StaysUnique cs t)) }
    ensures same { K.told keeper.new ≡ K.told keeper.old }
    ensures cause { HasCause (K.faults keeper.old) (K.faults keeper.new) (has_failed result) }
{
    if !is_id(spot.directory) || !is_id(spot.copy) {
        return Ok(None);
    }
    let mut batch = batch;
    if !copy_visit(alloc, keeper, &mut batch, row, name, spot)? {
        return Ok(None);
    }
    Ok(Some(batch))
}

/// The same of a batch that may be none.
fn next_names<K: Keeper>(
    alloc: Global,
    keeper: &mut K,
    names: Option<Batch>,
    row: &InodeRow,
    name: &ByteList,
    spot: CopySpot,
) -> Result<Option<Batch>, KeeperFault>
    requires { spot.now < 2 ^ 62 }
    ensures copied { IfOk result (λ b. IfTold (K.told keeper.old) (λ t. IsOrdered t → ((cs : List Change) → names ≡ Some cs → StaysUnique cs t) → AreAttrNames t row.now.id
        → attribute_name_check name.now ≡ None → b ≡ option_and_then (visit_batch spot row.now name.now t) names)) }
    ensures unique { IfOk result (λ b. IfTold (K.told keeper.old) (λ t. IsOrdered t → ((cs : List Change) → names ≡ Some cs → StaysUnique cs t) → AreAttrNames t row.now.id
        → attribute_name_check name.now ≡ None → (cs : List Change) → b ≡ Some cs → StaysUnique cs t)) }
    ensures same { K.told keeper.new ≡ K.told keeper.old }
    ensures cause { HasCause (K.faults keeper.old) (K.faults keeper.new) (has_failed result) }
{
    match names {
        Some(batch) => with_visit(alloc, keeper, batch, row, name, spot),
        None => Ok(None),
    }
}

impl Copied {
    /// Where the copy of an inode comes that an entry of a level names.
    pub(crate) fn spot(&self, level: &Level, inode: u64, params: &Params, now: u64) -> CopySpot
        ensures { result ≡ spot_of self.now params.now.next_inode level.now inode now }
    {
        match self.numbers.get(&inode) {
            Some(copy) => CopySpot {
                directory: level.copy,
                copy: *copy,
                again: true,
                now,
            },
            None => CopySpot {
                directory: level.copy,
                copy: params.next_inode + self.seen.len() as u64,
                again: false,
                now,
            },
        }
    }

    /// Notes that an inode was seen, and the number of its copy where it may be met again.
    fn note(&mut self, row: &InodeRow, spot: CopySpot) -> Result<(), AllocError>
        ensures { OnOk result (IsNoted spot row.now self.old self.new) }
    {
        if spot.again {
            return Ok(());
        }
        self.seen.push(row.id)?;
        if !is_met_once(row) {
            self.numbers.insert(row.id, spot.copy)?;
        }
        Ok(())
    }

    /// Visits an entry: what it names, and then the entry itself.
    pub(crate) fn visit<K: Keeper>(
        &mut self,
        alloc: Global,
        keeper: &mut K,
        row: &InodeRow,
        name: &ByteList,
        spot: CopySpot,
    ) -> Result<(), KeeperFault>
        requires { spot.now < 2 ^ 62 }
        ensures visited { OnOk result (IfTold (K.told keeper.old) (λ t. IsOrdered t → ((cs : List Change) → self.old.names ≡ Some cs → StaysUnique cs t) → AreAttrNames t row.now.id
            → attribute_name_check name.now ≡ None → IsVisited t spot row.now name.now self.old self.new)) }
        ensures same { K.told keeper.new ≡ K.told keeper.old }
        ensures cause { HasCause (K.faults keeper.old) (K.faults keeper.new) (has_failed result) }
    {
        let names = self.names.take();
        self.names = next_names(alloc, keeper, names, row, name, spot)?;
        self.note(row, spot)?;
        Ok(())
    }
}
