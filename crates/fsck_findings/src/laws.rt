//! Lines that are worked by hand. The law is the contract of a function without a body.
ghost use Rattle.std.specs.Prelude.{◌≡◌, ◌∷◌, [], ◌-◌, ◌^◌, None, Some, codes};
ghost use Rattle.fsck_findings.specs.declared.finding.Numbered.TheVariants as tables;
ghost use Rattle.fsck_findings.specs.declared.finding.Finding.TheVariants as findings;
ghost use Rattle.fsck_findings.specs.Line.{line_of};

/// Lines as they are written.
pub fn findings_worked_by_hand()
    ensures entry { line_of (findings.EntryDropped 4 (Some (codes "b"))) ≡ codes "entry 4 62 dropped" }
    ensures bytes { line_of (findings.EntryDropped 1 (Some (255 ∷ 10 ∷ 46 ∷ []))) ≡ codes "entry 1 ff0a2e dropped" }
    ensures nameless { line_of (findings.EntryDropped 12 None) ≡ codes "entry 12 - dropped" }
    ensures moved { line_of (findings.Moved 3) ≡ codes "inode 3 moved" }
    ensures removed { line_of (findings.Removed tables.Name 3) ≡ codes "name 3 removed" }
    ensures size { line_of (findings.Size 5 7 0) ≡ codes "inode 5 size 7 is 0" }
    ensures count { line_of (findings.Count tables.Inode 2 7 1) ≡ codes "inode 2 count 7 is 1" }
    ensures next { line_of (findings.Next tables.Object 1 (2 ^ 62)) ≡ codes "next object 1 is 4611686018427387904" }
    ensures stored { line_of (findings.SlotStored 1 3 2) ≡ codes "slot 1 inode 3 block 2 stored" }
    ensures lost { line_of (findings.BlockLost 3 2) ≡ codes "inode 3 block 2 lost" }
    ensures key { line_of (findings.KeyRemoved (codes "s3ql_data_1")) ≡ codes "key s3ql_data_1 removed" }
{}
