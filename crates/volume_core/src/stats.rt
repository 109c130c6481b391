//! The numbers of the tables of a core.
ghost use Rattle.std.specs.Prelude.{◌≡◌, length, IfOk};
ghost use Rattle.sha2.specs.Sha256.{sha256};
ghost use Rattle.s3_base.specs.Faults.{HasCause};
ghost use Rattle.plain_tree.specs.Tree.{Tree};
ghost use Rattle.plain_tree.specs.Attributes.{at_most_u64};
ghost use Rattle.s3_rows.specs.Told.{has_failed};
ghost use Rattle.core_model.specs.Bytes.{no_overlay};
ghost use Rattle.core_model.specs.Exact.{IsExact};
ghost use Rattle.core_model.specs.Occurring.{IsCollisionFree, blocks_in};
ghost use Rattle.byte_steps.specs.Counts.{different_blocks};
ghost use Rattle.volume_core.specs.Standing.{StandsFor};
ghost use Rattle.volume_core.specs.Stats.{AreOfTree, AreOfBlocks};

use crate::RowCore;
use byte_steps::counts_of_exact_tables;
use inode_ops::{RowStats, stats};
use s3_rows::{Keeper, KeeperFault};

impl<K: Keeper> RowCore<K> {
    /// How many inodes, entries, links to blocks, blocks, objects and free objects there are. It reads all rows of five tables, page
    /// by page.
    pub fn stats(&mut self) -> Result<RowStats, KeeperFault>
        ensures tree { IfOk result (λ s. (whole : Tree) → StandsFor K.told self.old whole → AreOfTree whole s) }
        // Where all places are exact, there is a link for each block that is not all zeros.
        ensures links { IfOk result (λ s. (whole : Tree) (core : StandsFor K.told self.old whole) → IsExact sha256 core.now.tables no_overlay whole
            → s.links ≡ at_most_u64 (length (blocks_in whole))) }
        // Where no two different ones collide, equal blocks are there once, each with an object.
        ensures blocks { IfOk result (λ s. (whole : Tree) (core : StandsFor K.told self.old whole) → IsExact sha256 core.now.tables no_overlay whole
            → IsCollisionFree sha256 (blocks_in whole) → AreOfBlocks (different_blocks (blocks_in whole)) s) }
        // Nothing changes, and the keeper's count of faults rose where it failed.
        ensures same { K.told self.new.keeper ≡ K.told self.old.keeper }
        ensures handles { self.new.handles ≡ self.old.handles }
        ensures cause { HasCause (K.faults self.old.keeper) (K.faults self.new.keeper) (has_failed result) }
    {
        let counted = stats(&mut self.keeper)?;
        counts_of_exact_tables();
        Ok(counted)
    }
}
