//! What a pass of a check gives.
ghost use Rattle.std.specs.Prelude.{◌≡◌, ◌++◌, [], ◌∷◌, OnOk, OnErr};
ghost use Rattle.fsck_findings.specs.Line.{line_of};

use crate::Finding;
use s3_base::{ByteList, Sequence};
use s3_rows::{Batch, Change};
use std::alloc::{AllocError, Global};

/// Lines of findings in order, each without the byte at its end.
pub type Findings = Sequence<ByteList>;

/// The changes that a pass makes, which are one batch, and a line for each thing that it found.
#[derive(Debug, Drop)]
pub struct Repair {
    pub batch: Batch,
    pub findings: Findings,
}

/// Why a pass gave no repair.
#[derive(Clone, Copy, Debug, PartialEq, Eq)]
pub enum PassFault {
    /// The pass needs a number, and none is left.
    Worn,
    /// There was no memory.
    Memory,
}

impl From<AllocError> for PassFault {
    ghost use Rattle.std.specs.Prelude.{◌≡◌};
    ghost use Rattle.fsck_findings.specs.declared.repair.PassFault.TheVariants.{Memory};

    ghost from_gives = { λ _ fault. fault ≡ Memory };

    fn from(_refused: AllocError) -> Self {
        PassFault::Memory
    }
}

impl Repair {
    /// Nothing to do, which takes no memory.
    pub fn new(alloc: Global) -> Self
        ensures batch { result.batch ≡ [] }
        ensures findings { result.findings ≡ [] }
    {
        Repair {
            batch: Batch::new(alloc),
            findings: Findings::new(alloc),
        }
    }

    /// Adds the line of a finding at the end.
    pub fn find(&mut self, alloc: Global, finding: &Finding) -> Result<(), AllocError>
        ensures batch { self.new.batch ≡ self.old.batch }
        ensures ok { OnOk result (self.new.findings ≡ self.old.findings ++ line_of finding.now ∷ []) }
        ensures err { OnErr result (self.new.findings ≡ self.old.findings) }
    {
        let line = finding.line(alloc)?;
        self.findings.push(line)
    }

    /// Adds a change at the end.
    pub fn change(&mut self, change: Change) -> Result<(), AllocError>
        ensures findings { self.new.findings ≡ self.old.findings }
        ensures ok { OnOk result (self.new.batch ≡ self.old.batch ++ change ∷ []) }
        ensures err { OnErr result (self.new.batch ≡ self.old.batch) }
    {
        self.batch.push(change)
    }
}
