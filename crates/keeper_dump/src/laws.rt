//! Laws of dumps, each the contract of a function without a body.
ghost use Rattle.std.specs.Prelude.{◌≡◌, ℕ, ◌≤◌, ◌-◌, ◌^◌, length, take, codes, Ok, IsTrue};
ghost use Rattle.s3_rows.specs.Made.{made_tables};
ghost use Rattle.s3_rows.specs.Tables as tables;
ghost use Rattle.keeper_dump.specs.Dump.{dump_of, dump_read, is_dumped};

/// The dump of tables is read as these tables.
pub fn dumps_read_back()
    ensures { (t : tables.Tables) → IsTrue (is_dumped t) → length (dump_of t) ≤ 2 ^ 64 - 1 → dump_read (dump_of t) ≡ Ok t }
{}

/// The dump of a file system that was just made has 297 bytes, and begins with `S3QLDMP1`.
pub fn made_dumps_are_short()
    ensures length { (block_size slots now : ℕ) → length (dump_of (made_tables block_size slots now)) ≡ 297 }
    ensures start { (block_size slots now : ℕ) → take 8 (dump_of (made_tables block_size slots now)) ≡ codes "S3QLDMP1" }
{}
