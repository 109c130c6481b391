//! What is so of tables once blocks are placed, and of their files.
ghost use Rattle.std.specs.Prelude.{ℕ, List};
ghost use Rattle.s3_rows.specs.declared.change.Change.{Change};
ghost use Rattle.s3_rows.specs.Batches.{tables_after};
ghost use Rattle.s3_rows.specs.Rows.{Inode};
ghost use Rattle.s3_rows.specs.Tables.{Tables};
ghost use Rattle.s3_rows.specs.Told.{Told};
ghost use Rattle.s3_rows.specs.Stores.{AreHeld};
ghost use Rattle.s3_devices.specs.Keys.{objects_in};
ghost use Rattle.s3_devices.specs.Objects.{Objects};
ghost use Rattle.core_model.specs.Safe.{HaveHeld, IsPrepared};
ghost use Rattle.tree_rows.specs.Contents.{Contents, HaveBytes};
ghost use Rattle.file_ops.specs.declared.new_block.NewBlock.{NewBlock};
ghost use Rattle.byte_steps.specs.Changed.{EndsAt};
ghost use Rattle.file_ops.specs.FileChanges.{IsFileAt};
ghost use Rattle.file_ops.specs.Placed.{ArePlaceable, ArePlaced, ArePut, HaveTheirForms, KnowsBlocks, WerePlaced};

use block_steps::{
    changes_of_places_keep_names, counted_blocks_leave_forms, counted_blocks_owe_a_place,
    kept_rows_keep_what_is_held, made_blocks_have_their_form, made_blocks_owe_a_place,
    order_of_debts_is_free, relinked_places_leave_valid_tables,
    tables_that_owe_no_places_are_valid,
};
use core_model::held_blocks_rest_on_their_objects;

/// Where the batch after which blocks are placed allows it, the tables are valid after that, with the same names, and with the same
/// forms at all other places. Where contents know the bytes of all blocks, the places have their forms, and the contents know all rows. What the
/// store held of the rows before, it holds of the rows then.
pub(crate) fn placed_blocks_leave_valid_tables()
    ensures valid { (digest_of : List ℕ → List ℕ) (inode : ℕ) (blocks : List NewBlock) (before after : Told) (batch now : List Change)
        → WerePlaced digest_of inode blocks before after batch now → ArePlaceable after.tables batch inode blocks
        → ArePlaced (tables_after batch after.tables) (tables_after now after.tables) inode blocks }
    ensures forms { (digest_of : List ℕ → List ℕ) (inode : ℕ) (blocks : List NewBlock) (before after : Told) (batch now : List Change)
        → WerePlaced digest_of inode blocks before after batch now → ArePlaceable after.tables batch inode blocks
        → (m : Contents) → HaveBytes m after.tables.blocks → KnowsBlocks digest_of m blocks
        → HaveTheirForms digest_of (tables_after now after.tables) inode blocks × HaveBytes m (tables_after now after.tables).blocks }
    ensures held { (digest_of : List ℕ → List ℕ) (inode : ℕ) (blocks : List NewBlock) (before after : Told) (batch now : List Change)
        → (did : WerePlaced digest_of inode blocks before after batch now) → ArePlaceable after.tables batch inode blocks
        → (o since : Objects) → ArePut blocks did.xs o since
        → AreHeld digest_of (objects_in o) after.tables.blocks → AreHeld digest_of (objects_in since) (tables_after now after.tables).blocks }
    ensures bytes_held { (digest_of : List ℕ → List ℕ) (inode : ℕ) (blocks : List NewBlock) (before after : Told) (batch now : List Change)
        → (did : WerePlaced digest_of inode blocks before after batch now) → ArePlaceable after.tables batch inode blocks
        → (m : Contents) → KnowsBlocks digest_of m blocks → (o since : Objects) → ArePut blocks did.xs o since
        → HaveHeld m (objects_in o) after.tables.blocks → HaveHeld m (objects_in since) (tables_after now after.tables).blocks }
{
    changes_of_places_keep_names();
    held_blocks_rest_on_their_objects();
    counted_blocks_leave_forms();
    counted_blocks_owe_a_place();
    kept_rows_keep_what_is_held();
    made_blocks_have_their_form();
    made_blocks_owe_a_place();
    order_of_debts_is_free();
    relinked_places_leave_valid_tables();
    tables_that_owe_no_places_are_valid();
}

/// A file of valid tables stays as it is while objects are drawn, and no place past its end has a form.
pub fn files_of_valid_tables()
    ensures drawn { (before after : Tables) (file : Inode) (block_size : ℕ) → IsPrepared before after → IsFileAt before file block_size → IsFileAt after file block_size }
    ensures ends { (t : Tables) (file : Inode) (block_size : ℕ) → IsFileAt t file block_size → EndsAt t file.id block_size file.size }
{}
