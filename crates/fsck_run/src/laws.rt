//! What a step leaves of a check, and how checks end. Each is the contract of a function without a body.
ghost use Rattle.std.specs.Prelude.{◌≡◌, Some, Ok, Err, option_map};
ghost use Rattle.s3_rows.specs.Told.{Told};
ghost use Rattle.s3_rows.specs.declared.params.State.TheVariants as states;
ghost use Rattle.s3_devices.specs.Objects.{Objects};
ghost use Rattle.fsck_run.specs.declared.fault.FsckFault as faults;
ghost use Rattle.fsck_run.specs.Check.{More, Done, check_after, rest_after, step_after};
ghost use Rattle.fsck_run.specs.Progress.{Progress};

/// Behind a step that made a change all is left that was left before it, and the last step ends the check.
pub fn steps_make_the_check()
    ensures more { (s t : Progress) → step_after s ≡ Ok (More t) → rest_after s ≡ rest_after t }
    ensures done { (s t : Progress) → step_after s ≡ Ok (Done t) → rest_after s ≡ Ok t }
    ensures refused { (s : Progress) (fault : faults.FsckFault) → step_after s ≡ Err fault → rest_after s ≡ Err fault }
{}

/// A check that is made to its end leaves a file system that is marked as clean.
pub fn checks_end_clean()
    ensures { (t : Told) (o : Objects) (s : Progress) → check_after t o ≡ Ok s → option_map (λ p. p.state) s.told.tables.params ≡ Some states.Clean }
{}
