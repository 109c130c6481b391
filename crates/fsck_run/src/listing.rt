//! The keys of the store that a check looks at, read page by page.
ghost use Rattle.std.specs.Prelude.{◌≡◌, ◌++◌, ◌||◌, ℕ, List, [], ◌∷◌, filter, map, is_some, IfOk, OnOk};
ghost use Rattle.s3_base.specs.Faults.{HasCause};
ghost use Rattle.s3_devices.specs.LinkAnswers.{has_failed};
ghost use Rattle.s3_devices.specs.Objects.{AreOrdered};
ghost use Rattle.s3_devices.specs.Told.{IfTold};
ghost use Rattle.metadata_backup.specs.Numbers as numbers;
ghost use Rattle.metadata_backup.specs.Survey.{last_or};
ghost use Rattle.fsck_run.specs.Listing as listing;
ghost use Rattle.fsck_run.specs.Listing.{IsReadPage, IsReadTo};

use metadata_backup::{generation_of, object_of};
use s3_base::ByteList;
use s3_devices::{KeyItem, KeyList, Link, LinkFault};
use std::alloc::{AllocError, Global};

/// How many keys are asked for at once.
const PAGE: u32 = 256;

/// Whether the key is that of a data object or of a generation. Others are never looked at.
fn is_own(key: &[u8]) -> bool
    ensures { result ≡ listing.is_own_key key.now }
{
    object_of(key).is_some() || generation_of(key).is_some()
}

/// Keeps a key, if a check looks at it.
fn keep(keys: &mut KeyList, item: KeyItem) -> Result<(), AllocError>
    ensures { OnOk result (keys.new ≡ keys.old ++ filter listing.is_own (item ∷ [])) }
{
    if is_own(item.key.as_slice()) {
        keys.push(item)?;
    }
    Ok(())
}

/// Keeps the keys of a page. The last of them takes the place of `after`.
fn keep_page(keys: &mut KeyList, after: &mut ByteList, page: KeyList) -> Result<(), AllocError>
    ensures kept { OnOk result (keys.new ≡ keys.old ++ filter listing.is_own page) }
    ensures last { OnOk result (after.new ≡ last_or after.old (map (λ i. i.key) page)) }
{
    for item in page.into_vec() {
        *after = item.key.clone()?;
        keep(keys, item)?;
    }
    Ok(())
}

/// Keeps the keys of the next page, and says whether it was the last one.
fn read_page<L: Link>(
    link: &mut L,
    keys: &mut KeyList,
    after: &mut ByteList,
) -> Result<bool, LinkFault>
    ensures read { IfOk result (λ last. IfTold (L.told link.old) (λ o. AreOrdered o → (start : List ℕ)
        → IsReadTo start after.old keys.old o → IsReadPage last start after.new keys.new o)) }
    ensures same { L.told link.new ≡ L.told link.old }
    ensures cause { HasCause (L.faults link.old) (L.faults link.new) (has_failed result) }
{
    let page = link.list(after, PAGE)?;
    let last = page.len() == 0;
    keep_page(keys, after, page)?;
    Ok(last)
}

/// The keys of data objects and of generations, in order.
pub(crate) fn own_keys<L: Link>(alloc: Global, link: &mut L) -> Result<KeyList, LinkFault>
    ensures keys { IfOk result (λ keys. IfTold (L.told link.old) (λ o. AreOrdered o → keys ≡ listing.own_keys o)) }
    ensures same { L.told link.new ≡ L.told link.old }
    ensures cause { HasCause (L.faults link.old) (L.faults link.new) (has_failed result) }
{
    let mut keys = KeyList::new(alloc);
    let mut after = ByteList::from_slice(alloc, b"s3ql_")?;
    for _page in 0..u64::MAX {
        if read_page(link, &mut keys, &mut after)? {
            return Ok(keys);
        }
    }
    Err(LinkFault::Memory)
}
