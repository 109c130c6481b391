//! What each change of a row makes of the forms that spots name.
ghost use Rattle.std.specs.Prelude.{◌≡◌, ℕ, ◌==◌, List, Bool, false, not, IsTrue, None, Some, option_map};
ghost use Rattle.std.specs.List.{list_all};
ghost use Rattle.std.specs.Ordering.{is_eq};
ghost use Rattle.s3_rows.specs.declared.change.Change.TheVariants as changes;
ghost use Rattle.s3_rows.specs.Rows.{InodeBlock, Block, Object};
ghost use Rattle.s3_rows.specs.Keyed.{pair_cmp};
ghost use Rattle.s3_rows.specs.Tables.{Tables};
ghost use Rattle.s3_rows.specs.Batches.{after_change};
ghost use Rattle.s3_rows.specs.Selections.{block_at};
ghost use Rattle.tree_rows.specs.Spots.{form_at, form_of_row};

/// A link that is put gives its spot the form of the block that it names, one that is deleted leaves none, and every other spot keeps
/// its own.
pub fn forms_follow_links()
    ensures put { (t : Tables) (r : InodeBlock) → form_at (after_change (changes.PutInodeBlock r) t) r.inode r.blockno ≡ option_map form_of_row (block_at t r.block) }
    ensures put_elsewhere { (t : Tables) (r : InodeBlock) (inode blockno : ℕ) → is_eq (pair_cmp (inode, blockno) (r.inode, r.blockno)) ≡ false
        → form_at (after_change (changes.PutInodeBlock r) t) inode blockno ≡ form_at t inode blockno }
    ensures deleted { (t : Tables) (inode blockno : ℕ) → form_at (after_change (changes.DeleteInodeBlock inode blockno) t) inode blockno ≡ None }
    ensures deleted_elsewhere { (t : Tables) (inode blockno other number : ℕ) → is_eq (pair_cmp (inode, blockno) (other, number)) ≡ false
        → form_at (after_change (changes.DeleteInodeBlock inode blockno) t) other number ≡ form_at t other number }
{}

/// A block row that no link names changes no form, when it comes and when it goes; nor does one of another count in its place.
pub fn unnamed_blocks_leave_forms()
    ensures put { (t : Tables) (r : Block) (inode blockno : ℕ) → IsTrue (list_all (λ l. not (l.block == r.id)) t.inode_blocks)
        → form_at (after_change (changes.PutBlock r) t) inode blockno ≡ form_at t inode blockno }
    ensures deleted { (t : Tables) (id inode blockno : ℕ) → IsTrue (list_all (λ l. not (l.block == id)) t.inode_blocks)
        → form_at (after_change (changes.DeleteBlock id) t) inode blockno ≡ form_at t inode blockno }
    ensures counted { (t : Tables) (r : Block) (inode blockno : ℕ) → option_map form_of_row (block_at t r.id) ≡ Some (form_of_row r)
        → form_at (after_change (changes.PutBlock r) t) inode blockno ≡ form_at t inode blockno }
{}

/// Tables with the same links and blocks have the same forms.
pub fn forms_are_links_and_blocks()
    ensures { (t other : Tables) (inode blockno : ℕ) → other.inode_blocks ≡ t.inode_blocks → other.blocks ≡ t.blocks
        → form_at other inode blockno ≡ form_at t inode blockno }
{}
