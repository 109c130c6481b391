//! How a core is opened.
ghost use Rattle.std.specs.Prelude.{◌≡◌, ◌≤◌, Some, None, IfOk, IfErr, OnOk, OnErr};
ghost use Rattle.s3_base.specs.Faults.{HasCause};
ghost use Rattle.plain_tree.specs.Tree.{Tree};
ghost use Rattle.s3_rows.specs.Ranges.{HasRanges};
ghost use Rattle.s3_rows.specs.Tables.{Tables};
ghost use Rattle.s3_rows.specs.Told.{Told, IfTold};
ghost use Rattle.tree_rows.specs.Shapes.{Represents};
ghost use Rattle.volume_core.specs.Opening.{AreReady, IsOpened, IsCauseOf, IsMounting, is_keeper_fault};
ghost use Rattle.volume_core.specs.Standing.{StandsFor};

use crate::{OpenFault, RowCore};
use ref_counts::Handles;
use s3_rows::{Batch, Change, Keeper, KeeperFault, Params, State};
use std::alloc::Global;

impl From<KeeperFault> for OpenFault {
    ghost use Rattle.std.specs.Prelude.{◌≡◌};
    ghost use Rattle.s3_rows.specs.declared.keeper.KeeperFault.TheVariants as faults;
    ghost use Rattle.volume_core.specs.declared.row_core.OpenFault.TheVariants.{Keeper, Memory};

    ghost from_gives = { λ f r. r ≡ (elim f [ faults.Failed ↦ Keeper | faults.Memory ↦ Memory ]) };

    fn from(fault: KeeperFault) -> Self {
        match fault {
            KeeperFault::Failed => OpenFault::Keeper,
            KeeperFault::Memory => OpenFault::Memory,
        }
    }
}

impl<K: Keeper> RowCore<K> {
    /// Opens the file system that a keeper has: commits that it is mounted. A refusal hands the keeper back.
    pub fn open(alloc: Global, keeper: K) -> Result<Self, (K, OpenFault)>
        // Ok: the file system was closed in order, and one batch says that it is mounted. Where its tables are ready, the core
        // stands for the tree that they represent, without handles.
        ensures mounted { IfOk result (λ core. (s : Told) → K.told keeper ≡ Some s → IsMounting s (K.told core.keeper)) }
        ensures stands { IfOk result (λ core. (s : Told) (whole : Tree) → K.told keeper ≡ Some s → AreReady s.tables → Represents s.tables whole → IsOpened whole → StandsFor K.told core whole) }
        ensures untold { IfOk result (λ core. K.told keeper ≡ None → K.told core.keeper ≡ None) }
        // A refusal leaves what is told, and has its cause in the parameters or in the keeper's count of faults.
        ensures same { IfErr result (λ e. K.told e.0 ≡ K.told keeper) }
        ensures cause { IfErr result (λ e. IfTold (K.told keeper) (λ t. IsCauseOf e.1 t.params)) }
        // The count of faults never falls, and rose where the keeper failed.
        ensures later { IfOk result (λ core. K.faults keeper ≤ K.faults core.keeper) }
        ensures fault { IfErr result (λ e. HasCause (K.faults keeper) (K.faults e.0) (is_keeper_fault e.1)) }
    {
        let mut keeper = keeper;
        match mount(alloc, &mut keeper) {
            Ok(()) => Ok(RowCore {
                alloc,
                keeper,
                handles: Handles::new(alloc),
            }),
            Err(fault) => Err((keeper, fault)),
        }
    }
}

/// Commits that the file system is mounted.
fn mount<K: Keeper>(alloc: Global, keeper: &mut K) -> Result<(), OpenFault>
    ensures ok { OnOk result ((s : Told) → K.told keeper.old ≡ Some s → IsMounting s (K.told keeper.new)) }
    ensures untold { OnOk result (K.told keeper.old ≡ None → K.told keeper.new ≡ None) }
    ensures ranges { OnOk result (IfTold (K.told keeper.old) HasRanges) }
    ensures err { OnErr result (K.told keeper.new ≡ K.told keeper.old) }
    ensures cause { IfErr result (λ fault. IfTold (K.told keeper.old) (λ t. IsCauseOf fault t.params)) }
    ensures later { OnOk result (K.faults keeper.old ≤ K.faults keeper.new) }
    ensures fault { IfErr result (λ fault. HasCause (K.faults keeper.old) (K.faults keeper.new) (is_keeper_fault fault)) }
{
    let params = keeper.params()?.ok_or(OpenFault::NoFileSystem)?;
    if params.state != State::Clean {
        return Err(OpenFault::Unclean);
    }
    let mut batch = Batch::new(alloc);
    if batch
        .push(Change::SetParams(Params {
            state: State::Mounted,
            ..params
        }))
        .is_err()
    {
        return Err(OpenFault::Memory);
    }
    keeper.commit(&batch)?;
    Ok(())
}
