//! What the definitions say of a store after a put and after a delete, and of keys. Each is the contract of a function without a
//! body.
ghost use Rattle.std.specs.Prelude.{◌≡◌, ◌≢◌, ◌<◌, ◌≤◌, ◌^◌, ◌-◌, ℕ, List, None, Some, All, length, codes};
ghost use Rattle.s3_devices.specs.Objects.{Objects, held_at, with_object, without_object, AreOrdered, KeepsOthers};
ghost use Rattle.s3_devices.specs.LinkAnswers.{IsKeyPage, listed, key_limit};
ghost use Rattle.s3_devices.specs.Keys.{data_key, generation_key, objects_in};

/// After a put the key holds the bytes, and every other key holds what it held.
pub fn put_object_is_held()
    ensures held { (key bytes : List ℕ) (o : Objects) → held_at (with_object key bytes o) key ≡ Some bytes }
    ensures others { (key bytes : List ℕ) (o : Objects) → KeepsOthers key o (with_object key bytes o) }
{}

/// After a delete the key is absent, and every other key holds what it held.
pub fn deleted_object_is_absent()
    ensures absent { (key : List ℕ) (o : Objects) → held_at (without_object key o) key ≡ None }
    ensures others { (key : List ℕ) (o : Objects) → KeepsOthers key o (without_object key o) }
{}

/// What is listed of keys in order, none too long, is a page.
pub fn listed_keys_are_a_page()
    ensures { (after : List ℕ) (max : ℕ) (o : Objects) → AreOrdered o → All (λ e. length e.0 ≤ key_limit) o → IsKeyPage after max (listed after max o) }
{}

/// A key names one data object or one generation, and none names both.
pub fn keys_name_one_thing()
    ensures object { (a b : ℕ) → a < 2 ^ 64 → b < 2 ^ 64 → data_key a ≡ data_key b → a ≡ b }
    ensures generation { (a b : ℕ) → a < 2 ^ 64 → b < 2 ^ 64 → generation_key a ≡ generation_key b → a ≡ b }
    ensures apart { (id number : ℕ) → data_key id ≢ generation_key number }
{}

/// No key is too long, and those of generations are all of one length.
pub fn keys_are_short()
    ensures object { (id : ℕ) → id < 2 ^ 64 → length (data_key id) ≤ key_limit }
    ensures generation { (number : ℕ) → number < 2 ^ 64 → length (generation_key number) ≤ key_limit }
    ensures digits { (number : ℕ) → number < 2 ^ 64 → length (generation_key number) ≡ 34 }
{}

/// A put or a delete under the key of a data object, answered or refused, changes this object alone, and one under the key of a
/// generation changes none.
pub fn objects_change_by_their_keys()
    ensures put { (id : ℕ) (bytes : List ℕ) (o : Objects) → objects_in (with_object (data_key id) bytes o) id ≡ Some bytes }
    ensures deleted { (id : ℕ) (o : Objects) → objects_in (without_object (data_key id) o) id ≡ None }
    ensures others { (id other : ℕ) (before after : Objects) → id < 2 ^ 64 → other < 2 ^ 64 → other ≢ id
        → KeepsOthers (data_key id) before after → objects_in after other ≡ objects_in before other }
    ensures generations { (number id : ℕ) (before after : Objects) → KeepsOthers (generation_key number) before after
        → objects_in after id ≡ objects_in before id }
{}

/// Keys as they are written.
pub fn keys_worked_by_hand()
    ensures object { data_key 1 ≡ codes "s3ql_data_1" }
    ensures greatest { data_key (2 ^ 62 - 1) ≡ codes "s3ql_data_4611686018427387903" }
    ensures generation { generation_key 70 ≡ codes "s3ql_metadata_00000000000000000070" }
{}
