//! Rows that a pass looks at one after the other.
ghost use Rattle.std.specs.Prelude.{OnOk};
ghost use Rattle.fsck_findings.specs.Found as specs;
ghost use Rattle.fsck_findings.specs.Found.{Found, Adds, each_found};

use crate::{Finding, Repair};
use s3_rows::Change;
use std::alloc::{AllocError, Global};

/// What a step of a pass finds about each row of a table.
pub trait Look<R> {
    /// What it finds about a row.
    ghost about: { Self → R → Found };

    /// Adds what is found about the row. A refused call leaves anything in the repair.
    fn look(&self, row: &R, repair: &mut Repair) -> Result<(), AllocError>
        ensures { OnOk result (Adds (about self.now row.now) repair.old repair.new) };
}

/// Looks at the rows in order.
pub fn look_at_all<R, L: Look<R>>(
    look: &L,
    rows: &[R],
    repair: &mut Repair,
) -> Result<(), AllocError>
    ensures { OnOk result (Adds (each_found (L.about look.now) rows.now) repair.old repair.new) }
{
    for row in rows {
        look.look(row, repair)?;
    }
    Ok(())
}

impl Repair {
    /// Adds a change and its line.
    pub fn add(
        &mut self,
        alloc: Global,
        change: Change,
        finding: &Finding,
    ) -> Result<(), AllocError>
        ensures { OnOk result (Adds (specs.found change finding.now) self.old self.new) }
    {
        self.change(change)?;
        self.find(alloc, finding)
    }
}
