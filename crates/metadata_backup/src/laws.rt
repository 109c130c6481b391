//! What keys name, and what a rotation leaves. Each is the contract of a function without a body.
ghost use Rattle.std.specs.Prelude.{◌≡◌, ◌-◌, ◌^◌, ℕ, List, None, Some, codes, IsTrue, not};
ghost use Rattle.s3_rows.specs.Rows.{IsId};
ghost use Rattle.s3_devices.specs.Keys.{data_key, generation_key};
ghost use Rattle.s3_devices.specs.Objects.{Objects, held_at};
ghost use Rattle.metadata_backup.specs.Numbers.{generation_of, object_of};
ghost use Rattle.metadata_backup.specs.Generations.{is_old, without_old};

/// The key of a generation or of a data object names it, and no other key does.
pub fn numbers_have_one_key()
    ensures generation { (n : ℕ) → IsId n → generation_of (generation_key n) ≡ Some n }
    ensures generation_only { (key : List ℕ) (n : ℕ) → generation_of key ≡ Some n → (key ≡ generation_key n) × IsId n }
    ensures object { (id : ℕ) → IsId id → object_of (data_key id) ≡ Some id }
    ensures object_only { (key : List ℕ) (id : ℕ) → object_of key ≡ Some id → (key ≡ data_key id) × IsId id }
{}

/// After a rotation old generations are absent, and all other keys hold what they held.
pub fn rotations_take_old_generations()
    ensures old { (limit : ℕ) (o : Objects) (key : List ℕ) → IsTrue (is_old limit key) → held_at (without_old limit o) key ≡ None }
    ensures others { (limit : ℕ) (o : Objects) (key : List ℕ) → IsTrue (not (is_old limit key)) → held_at (without_old limit o) key ≡ held_at o key }
{}

/// Keys as they are read.
#[tactic(auto, unfolding(crate::specs::Numbers::generation_of, crate::specs::Numbers::object_of, crate::specs::Numbers::number_of))]
pub fn keys_read_by_hand()
    ensures generation { generation_of (codes "s3ql_metadata_00000000000000000070") ≡ Some 70 }
    ensures greatest { generation_of (codes "s3ql_metadata_04611686018427387903") ≡ Some (2 ^ 62 - 1) }
    ensures too_great { generation_of (codes "s3ql_metadata_04611686018427387904") ≡ None }
    ensures zero { generation_of (codes "s3ql_metadata_00000000000000000000") ≡ None }
    ensures one_digit { generation_of (codes "s3ql_metadata_1") ≡ None }
    ensures digits { generation_of (codes "s3ql_metadata_000000000000000000001") ≡ None }
    ensures sign { generation_of (codes "s3ql_metadata_+0000000000000000001") ≡ None }
    ensures object { object_of (codes "s3ql_data_10") ≡ Some 10 }
    ensures leading_zero { object_of (codes "s3ql_data_01") ≡ None }
    ensures no_number { object_of (codes "s3ql_data_x") ≡ None }
    ensures nothing { object_of (codes "s3ql_data_") ≡ None }
{}
