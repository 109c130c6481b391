//! What the keys of a store name, read page by page.
ghost use Rattle.std.specs.Prelude.{◌≡◌, ◌++◌, ◌≤◌, ℕ, List, [], ◌∷◌, map, max, All, IfOk, OnOk, IsTrue};
ghost use Rattle.s3_base.specs.Faults.{HasCause};
ghost use Rattle.s3_rows.specs.Rows.{IsId, IsNext};
ghost use Rattle.s3_devices.specs.Objects.{AreOrdered};
ghost use Rattle.s3_devices.specs.LinkAnswers.{has_failed};
ghost use Rattle.s3_devices.specs.Told.{IfTold};
ghost use Rattle.metadata_backup.specs.Survey.{generations_in, object_end, objects_end, keys_past, last_or, IsReadTo, IsReadPage};

use crate::numbers::{generation_of, object_of};
use s3_base::{ByteList, NumberList};
use s3_devices::{KeyList, Link, LinkFault};
use std::alloc::{AllocError, Global};

/// How many keys are asked for at once.
const PAGE: u32 = 256;

/// What keys name: the generations in the order of the keys, and one more than the greatest data object.
#[derive(Debug, Drop)]
pub(crate) struct Survey {
    pub(crate) generations: NumberList,
    pub(crate) next_object: u64,
}

/// Notes what a key names.
fn note(found: &mut Survey, key: &[u8]) -> Result<(), AllocError>
    requires ids { All IsId found.old.generations }
    requires next { IsNext found.old.next_object }
    ensures generations { OnOk result (found.new.generations ≡ found.old.generations ++ generations_in (key.now ∷ [])) }
    ensures next_object { OnOk result (found.new.next_object ≡ max found.old.next_object (object_end key.now)) }
    ensures ids { All IsId found.new.generations }
    ensures next { IsNext found.new.next_object }
{
    if let Some(number) = generation_of(key) {
        found.generations.push(number)?;
    }
    if let Some(id) = object_of(key) {
        found.next_object = found.next_object.max(id + 1);
    }
    Ok(())
}

/// Notes what the keys of a page name. The last of them takes the place of `after`.
fn note_page(found: &mut Survey, after: &mut ByteList, page: KeyList) -> Result<(), AllocError>
    requires ids { All IsId found.old.generations }
    requires next { IsNext found.old.next_object }
    ensures generations { OnOk result (found.new.generations ≡ found.old.generations ++ generations_in (map (λ i. i.key) page)) }
    ensures next_object { OnOk result (found.new.next_object ≡ max found.old.next_object (objects_end (map (λ i. i.key) page))) }
    ensures last { OnOk result (after.new ≡ last_or after.old (map (λ i. i.key) page)) }
    ensures ids { All IsId found.new.generations }
    ensures next { IsNext found.new.next_object }
{
    for item in page.into_vec() {
        note(found, item.key.as_slice())?;
        *after = item.key;
    }
    Ok(())
}

/// Notes what the keys of the next page name, and says whether it was the last one.
fn read_page<L: Link>(
    link: &mut L,
    found: &mut Survey,
    after: &mut ByteList,
) -> Result<bool, LinkFault>
    requires ids { All IsId found.old.generations }
    requires next { IsNext found.old.next_object }
    ensures read { IfOk result (λ last. IfTold (L.told link.old) (λ o. AreOrdered o → (start : List ℕ)
        → IsReadTo start after.old found.old.generations found.old.next_object o
        → IsReadPage last start after.new found.new.generations found.new.next_object o)) }
    ensures ids { All IsId found.new.generations }
    ensures next { IsNext found.new.next_object }
    ensures same { L.told link.new ≡ L.told link.old }
    ensures cause { HasCause (L.faults link.old) (L.faults link.new) (has_failed result) }
{
    let page = link.list(after, PAGE)?;
    let last = page.len() == 0;
    note_page(found, after, page)?;
    Ok(last)
}

/// What the keys past `start` name.
pub(crate) fn read_keys<L: Link>(
    alloc: Global,
    link: &mut L,
    start: &[u8],
) -> Result<Survey, LinkFault>
    ensures found { IfOk result (λ s. IfTold (L.told link.old) (λ o. AreOrdered o
        → (s.generations ≡ generations_in (keys_past start.now o)) × (s.next_object ≡ objects_end (keys_past start.now o)))) }
    ensures ids { IfOk result (λ s. All IsId s.generations) }
    ensures next { IfOk result (λ s. IsNext s.next_object) }
    ensures same { L.told link.new ≡ L.told link.old }
    ensures cause { HasCause (L.faults link.old) (L.faults link.new) (has_failed result) }
{
    let mut found = Survey {
        generations: NumberList::new(alloc),
        next_object: 1,
    };
    let mut after = ByteList::from_slice(alloc, start)?;
    for _page in 0..u64::MAX {
        if read_page(link, &mut found, &mut after)? {
            return Ok(found);
        }
    }
    Err(LinkFault::Memory)
}
