//! The store of a file system that was just made. Each is the contract of a function without a body.
ghost use Rattle.std.specs.Prelude.{◌≡◌, ℕ, List, [], ◌∷◌, false, length};
ghost use Rattle.std.specs.Map.{keys_of};
ghost use Rattle.s3_devices.specs.Keys.{generation_key};
ghost use Rattle.s3_devices.specs.Objects.{Objects, with_object};
ghost use Rattle.keeper_dump.specs.Dump.{dump_of};
ghost use Rattle.metadata_backup.specs.Survey.{generations_in};
ghost use Rattle.metadata_backup.specs.Restores.{IsFoundIn};
ghost use Rattle.mkfs_ops.specs.Making.{AreSettings, first_tables, has_own_key};
ghost use Rattle.mkfs_ops.specs.declared.settings.Settings.{Settings};

use keeper_dump::dumps_read_back;

/// The first generation of a file system has 297 bytes.
pub fn first_dumps_are_short()
    ensures { (s : Settings) → length (dump_of (first_tables s)) ≡ 297 }
{}

/// A store that had no key of a file system has one generation once it holds the first one, and no data object; and that generation
/// is found as the tables that were dumped.
pub fn made_stores_have_one_generation()
    ensures one { (bytes : List ℕ) (o : Objects) → has_own_key o ≡ false → generations_in (keys_of (with_object (generation_key 1) bytes o)) ≡ 1 ∷ [] }
    ensures found { (s : Settings) (o : Objects) → AreSettings s → has_own_key o ≡ false
        → IsFoundIn (with_object (generation_key 1) (dump_of (first_tables s)) o) 1 (first_tables s) 1 1 }
{
    dumps_read_back();
    first_dumps_are_short();
}
