//! The generations in the store: the newest, and old ones that go.
ghost use Rattle.std.specs.Prelude.{◌≡◌, ◌-◌, ℕ, Some, None, max, length, option_map, IfOk, OnOk, OnErr, All};
ghost use Rattle.std.specs.Option.{ForSome};
ghost use Rattle.std.specs.Map.{keys_of};
ghost use Rattle.s3_base.specs.Faults.{HasCause};
ghost use Rattle.s3_rows.specs.Rows.{IsId};
ghost use Rattle.s3_devices.specs.Keys as keys;
ghost use Rattle.s3_devices.specs.LinkAnswers.{has_failed};
ghost use Rattle.s3_devices.specs.Objects.{AreOrdered, IsKeptOrGone, without_object};
ghost use Rattle.s3_devices.specs.Told.{IfTold, Becomes};
ghost use Rattle.metadata_backup.specs.Survey as survey;
ghost use Rattle.metadata_backup.specs.Survey.{generations_in, newest_in};
ghost use Rattle.metadata_backup.specs.Generations.{LosesOld, up_to, without_generations, without_old};

use crate::survey::read_keys;
use s3_devices::{Link, LinkFault, generation_key};
use std::alloc::Global;

/// The greater of two numbers, of which there may be only one.
fn greater(found: Option<u64>, number: u64) -> u64
    ensures { result ≡ elim found [ Some m ↦ max m number | None ↦ number ] }
{
    match found {
        Some(most) => most.max(number),
        None => number,
    }
}

/// The greatest of the numbers.
pub(crate) fn greatest(numbers: &[u64]) -> Option<u64>
    ensures { result ≡ survey.greatest numbers.now }
{
    let mut found = None;
    for number in numbers {
        found = Some(greater(found, *number));
    }
    found
}

/// The newest generation in the store.
pub fn newest<L: Link>(alloc: Global, link: &mut L) -> Result<Option<u64>, LinkFault>
    ensures newest { IfOk result (λ r. IfTold (L.told link.old) (λ o. AreOrdered o → r ≡ newest_in (keys_of o))) }
    ensures id { IfOk result (λ r. ForSome r IsId) }
    ensures same { L.told link.new ≡ L.told link.old }
    ensures cause { HasCause (L.faults link.old) (L.faults link.new) (has_failed result) }
{
    let found = read_keys(alloc, link, b"s3ql_metadata_")?;
    Ok(greatest(found.generations.as_slice()))
}

/// Deletes the key of a generation.
fn delete_generation<L: Link>(alloc: Global, link: &mut L, generation: u64) -> Result<(), LinkFault>
    ensures ok { OnOk result (L.told link.new ≡ option_map (without_object (keys.generation_key generation)) (L.told link.old)) }
    ensures err { OnErr result (Becomes (IsKeptOrGone (keys.generation_key generation)) (L.told link.old) (L.told link.new)) }
    ensures cause { HasCause (L.faults link.old) (L.faults link.new) (has_failed result) }
{
    let key = generation_key(alloc, generation)?;
    link.delete(&key)
}

/// Deletes the keys of those generations that are at most the limit, and says how many they are.
fn delete_old<L: Link>(
    alloc: Global,
    link: &mut L,
    generations: &[u64],
    limit: u64,
) -> Result<u64, LinkFault>
    requires { All IsId generations.now }
    ensures deleted { OnOk result (L.told link.new ≡ option_map (without_generations (up_to limit generations.now)) (L.told link.old)) }
    ensures count { IfOk result (λ n. n ≡ length (up_to limit generations.now)) }
    ensures left { Becomes (LosesOld limit) (L.told link.old) (L.told link.new) }
    ensures cause { HasCause (L.faults link.old) (L.faults link.new) (has_failed result) }
{
    let mut count = 0u64;
    for number in generations {
        if *number <= limit {
            delete_generation(alloc, link, *number)?;
            count += 1;
        }
    }
    Ok(count)
}

/// Deletes the generations that are at most `last_done` less `keep`, and says how many they were. Where it is refused some of them
/// are deleted. All other keys stay.
pub fn rotate<L: Link>(
    alloc: Global,
    link: &mut L,
    last_done: u64,
    keep: u64,
) -> Result<u64, LinkFault>
    ensures deleted { OnOk result (IfTold (L.told link.old) (λ o. AreOrdered o → L.told link.new ≡ Some (without_old (last_done - keep) o))) }
    ensures count { IfOk result (λ n. IfTold (L.told link.old) (λ o. AreOrdered o → n ≡ length (up_to (last_done - keep) (generations_in (keys_of o))))) }
    ensures left { Becomes (LosesOld (last_done - keep)) (L.told link.old) (L.told link.new) }
    ensures cause { HasCause (L.faults link.old) (L.faults link.new) (has_failed result) }
{
    let limit = last_done.saturating_sub(keep);
    let found = read_keys(alloc, link, b"s3ql_metadata_")?;
    delete_old(alloc, link, found.generations.as_slice(), limit)
}
