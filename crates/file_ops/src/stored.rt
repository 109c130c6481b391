//! One object of the store: how its bytes are read and written.
ghost use Rattle.std.specs.Prelude.{◌≡◌, ◌≢◌, ℕ, IfOk, IfErr, OnOk, OnErr, Some};
ghost use Rattle.sha2.specs.Sha256.{sha256};
ghost use Rattle.s3_base.specs.Faults.{HasCause};
ghost use Rattle.s3_devices.specs.Keys.{objects_in};
ghost use Rattle.s3_devices.specs.LinkAnswers as link_answers;
ghost use Rattle.s3_devices.specs.Told.{IfTold, Becomes};
ghost use Rattle.file_ops.specs.Loads.{IsLoss, IsLossOf, IsStored, KeepsOtherObjects, has_failed};

use crate::LoadFault;
use hash_index::digest;
use s3_base::ByteList;
use s3_devices::{
    Link, LinkFault, data_key, keys_are_short, objects_change_by_their_keys, put_object_is_held,
};
use s3_rows::Digest;
use std::alloc::Global;

/// The bytes, where they are there and have the digest that is kept of them.
fn verified(found: Option<ByteList>, object: u64, kept: &Digest) -> Result<ByteList, LoadFault>
    ensures bytes { IfOk result (λ bytes. found ≡ Some bytes) }
    ensures digest { IfOk result (λ bytes. sha256 bytes ≡ kept.now.0) }
    ensures lost { IfErr result (IsLossOf sha256 found object kept.now) }
{
    let got = match &found {
        Some(bytes) => Some(digest(bytes.as_slice())),
        None => None,
    };
    match found {
        Some(bytes) if got == Some(*kept) => Ok(bytes),
        _ => Err(LoadFault::Lost {
            object,
            kept: *kept,
            got,
        }),
    }
}

/// The bytes of an object, whose digest is kept in the rows. They are lost exactly where the store holds none, or bytes of another
/// digest.
pub fn fetch<L: Link>(
    alloc: Global,
    link: &mut L,
    object: u64,
    kept: &Digest,
) -> Result<ByteList, LoadFault>
    ensures bytes { IfOk result (λ bytes. IfTold (L.told link.old) (λ o. objects_in o object ≡ Some bytes)) }
    ensures digest { IfOk result (λ bytes. sha256 bytes ≡ kept.now.0) }
    ensures lost { IfErr result (IsLoss sha256 (L.told link.old) object kept.now) }
    ensures same { L.told link.new ≡ L.told link.old }
    ensures cause { HasCause (L.faults link.old) (L.faults link.new) (has_failed result) }
{
    let key = data_key(alloc, object)?;
    let found = link.get(&key)?;
    verified(found, object, kept)
}

/// Puts the bytes under the key of an object. After a refusal this object may be anything or absent. All others stay.
pub fn store<L: Link>(
    alloc: Global,
    link: &mut L,
    object: u64,
    bytes: &ByteList,
) -> Result<(), LinkFault>
    ensures ok { OnOk result (Becomes (IsStored object bytes.now) (L.told link.old) (L.told link.new)) }
    ensures err { OnErr result (Becomes (KeepsOtherObjects object) (L.told link.old) (L.told link.new)) }
    ensures cause { HasCause (L.faults link.old) (L.faults link.new) (link_answers.has_failed result) }
{
    keys_are_short();
    put_object_is_held();
    objects_change_by_their_keys();
    let key = data_key(alloc, object)?;
    link.put(&key, bytes)
}
