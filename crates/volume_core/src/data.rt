//! Operations on the bytes of one file.
ghost use Rattle.std.specs.Prelude.{◌≡◌, ◌<◌, ◌≤◌, ◌^◌, ℕ, length, false, Option, None, IsTrue, IfOk};
ghost use Rattle.sha2.specs.Sha256.{sha256};
ghost use Rattle.s3_base.specs.Faults.{HasCause};
ghost use Rattle.op_frames.specs.declared.operation.Op.TheVariants as ops;
ghost use Rattle.plain_tree.specs.Tree.{Tree};
ghost use Rattle.s3_devices.specs.Objects.{Objects};
ghost use Rattle.ref_counts.specs.Plans.{is_fit};
ghost use Rattle.volume_core.specs.Standing.{StandsFor};
ghost use Rattle.volume_core.specs.Refusals.{IsOutcome, has_keeper_failed, has_link_failed};

use crate::RowCore;
use crate::refusal::Refusal;
use crate::rows::{block_size_of, file_row, open_row};
use block_steps::names_kept_keep_the_tree;
use byte_steps::{changed_files_have_their_bytes, prepared_tables_keep_bytes};
use core_model::{held_blocks_rest_on_their_objects, prepared_tables_stay_valid};
use file_ops::{files_of_valid_tables, read, resize_file, write_file};
use op_checks::{check_read_length, check_size, check_unlocked, check_write_end};
use op_frames::Reply;
use ref_counts::attr_of;
use s3_base::ByteList;
use s3_devices::Link;
use s3_rows::{InodeRow, Keeper};

impl<K: Keeper> RowCore<K> {
    /// At most `count` bytes of an open file.
    pub(crate) fn read<L: Link>(
        &mut self,
        link: &mut L,
        pass: u64,
        handle: u64,
        offset: u64,
        count: u32,
    ) -> Result<Reply, Refusal>
        ensures outcome { (whole : Tree) (now : ℕ) → StandsFor K.told self.old whole
            → IsOutcome K.told self.old self.new sha256 (L.told link.old) (L.told link.new) whole pass (ops.Read handle offset count) now result }
        ensures keeper { HasCause (K.faults self.old.keeper) (K.faults self.new.keeper) (has_keeper_failed result) }
        ensures link { HasCause (L.faults link.old) (L.faults link.new) (has_link_failed result) }
        ensures untold { K.told self.new.keeper ≡ K.told self.old.keeper }
        ensures fit { IfOk result (λ reply. IsTrue (is_fit reply)) }
    {
        check_read_length(count)?;
        let row = open_row(&mut self.keeper, &self.handles, pass, handle)?;
        let block_size = block_size_of(&mut self.keeper)?;
        let bytes = read(
            self.alloc,
            &mut self.keeper,
            link,
            row.id,
            row.size,
            block_size,
            offset,
            count,
        )?;
        Ok(Reply::Bytes(bytes))
    }

    /// Answers once the bytes of an open file are stored: they are, since all is written through.
    pub(crate) fn fsync(&mut self, pass: u64, handle: u64) -> Result<Reply, Refusal>
        ensures outcome { (whole : Tree) (now : ℕ) (objects : Option Objects) → StandsFor K.told self.old whole
            → IsOutcome K.told self.old self.new sha256 objects objects whole pass (ops.Fsync handle) now result }
        ensures keeper { HasCause (K.faults self.old.keeper) (K.faults self.new.keeper) (has_keeper_failed result) }
        ensures link { has_link_failed result ≡ false }
        ensures untold { K.told self.new.keeper ≡ K.told self.old.keeper }
        ensures fit { IfOk result (λ reply. IsTrue (is_fit reply)) }
    {
        open_row(&mut self.keeper, &self.handles, pass, handle)?;
        Ok(Reply::Done)
    }

    /// Writes bytes into an open file.
    pub(crate) fn write<L: Link>(
        &mut self,
        link: &mut L,
        pass: u64,
        handle: u64,
        offset: u64,
        bytes: &ByteList,
        now: u64,
    ) -> Result<Reply, Refusal>
        requires now { now < 2 ^ 62 }
        requires short { length bytes.now ≤ 131072 }
        ensures outcome { (whole : Tree) → StandsFor K.told self.old whole
            → IsOutcome K.told self.old self.new sha256 (L.told link.old) (L.told link.new) whole pass (ops.Write handle offset bytes.now) now result }
        ensures keeper { HasCause (K.faults self.old.keeper) (K.faults self.new.keeper) (has_keeper_failed result) }
        ensures link { HasCause (L.faults link.old) (L.faults link.new) (has_link_failed result) }
        ensures untold { K.told self.old.keeper ≡ None → K.told self.new.keeper ≡ None }
        ensures fit { IfOk result (λ reply. IsTrue (is_fit reply)) }
    {
        prepared_tables_stay_valid();
        prepared_tables_keep_bytes();
        held_blocks_rest_on_their_objects();
        names_kept_keep_the_tree();
        changed_files_have_their_bytes();
        files_of_valid_tables();
        let row = open_row(&mut self.keeper, &self.handles, pass, handle)?;
        check_unlocked(&row)?;
        check_write_end(offset, bytes)?;
        if bytes.is_empty() {
            return Ok(Reply::Count(0));
        }
        let block_size = block_size_of(&mut self.keeper)?;
        let batch = write_file(
            self.alloc,
            &mut self.keeper,
            link,
            &row,
            block_size,
            offset,
            bytes.as_slice(),
            now,
        )?;
        self.keeper.commit(&batch)?;
        Ok(Reply::Count(bytes.len() as u32))
    }

    /// Cuts a file, or lengthens it with zeros.
    pub(crate) fn truncate<L: Link>(
        &mut self,
        link: &mut L,
        inode: u64,
        size: u64,
        now: u64,
    ) -> Result<Reply, Refusal>
        requires now { now < 2 ^ 62 }
        ensures outcome { (whole : Tree) (pass : ℕ) → StandsFor K.told self.old whole
            → IsOutcome K.told self.old self.new sha256 (L.told link.old) (L.told link.new) whole pass (ops.Truncate inode size) now result }
        ensures keeper { HasCause (K.faults self.old.keeper) (K.faults self.new.keeper) (has_keeper_failed result) }
        ensures link { HasCause (L.faults link.old) (L.faults link.new) (has_link_failed result) }
        ensures untold { K.told self.old.keeper ≡ None → K.told self.new.keeper ≡ None }
        ensures fit { IfOk result (λ reply. IsTrue (is_fit reply)) }
    {
        prepared_tables_stay_valid();
        prepared_tables_keep_bytes();
        held_blocks_rest_on_their_objects();
        names_kept_keep_the_tree();
        changed_files_have_their_bytes();
        files_of_valid_tables();
        let row = file_row(&mut self.keeper, inode)?;
        check_size(size)?;
        let block_size = block_size_of(&mut self.keeper)?;
        let batch = resize_file(
            self.alloc,
            &mut self.keeper,
            link,
            &row,
            block_size,
            size,
            now,
        )?;
        self.keeper.commit(&batch)?;
        Ok(Reply::Attr(attr_of(&InodeRow {
            size,
            mtime: now,
            ctime: now,
            ..row
        })))
    }
}
