//! Objects in a map in memory.
ghost use Rattle.std.specs.Prelude.{◌≡◌, ◌≤◌, length, IfOk, OnOk, OnErr};
ghost use Rattle.s3_devices.specs.Objects.{held_at, with_object, without_object};
ghost use Rattle.s3_devices.specs.LinkAnswers.{listed, key_limit};
ghost use Rattle.mem_link.specs.Memory.{AreStored};

use s3_base::ByteList;
use s3_devices::{KeyItem, KeyList};
use std::alloc::{AllocError, Global};
use std::collections::BTreeMap;
use std::ops::Bound;

/// Stores the bytes under the key.
pub(crate) fn put_object(
    objects: &mut BTreeMap<ByteList, ByteList>,
    key: ByteList,
    bytes: ByteList,
) -> Result<(), AllocError>
    requires short { length key ≤ key_limit }
    requires stored { AreStored objects.old.entries }
    ensures stored { AreStored objects.new.entries }
    ensures ok { OnOk result (objects.new.entries ≡ with_object key bytes objects.old.entries) }
    ensures err { OnErr result (objects.new.entries ≡ objects.old.entries) }
{
    match objects.insert(key, bytes) {
        Ok(_) => Ok(()),
        Err(_) => Err(AllocError),
    }
}

/// A copy of the bytes that the key holds.
pub(crate) fn copy_of_object(
    objects: &BTreeMap<ByteList, ByteList>,
    key: &ByteList,
) -> Result<Option<ByteList>, AllocError>
    ensures { IfOk result (λ r. r ≡ held_at objects.now.entries key.now) }
{
    match objects.get(key) {
        Some(bytes) => Ok(Some(bytes.clone()?)),
        None => Ok(None),
    }
}

/// Takes the key away, if it is there.
pub(crate) fn delete_object(objects: &mut BTreeMap<ByteList, ByteList>, key: &ByteList)
    requires { AreStored objects.old.entries }
    ensures stored { AreStored objects.new.entries }
    ensures deleted { objects.new.entries ≡ without_object key.now objects.old.entries }
{
    let _ = objects.remove(key);
}

/// The first `max` keys past one, each with the number of bytes that it holds.
pub(crate) fn keys_past(
    alloc: Global,
    objects: &BTreeMap<ByteList, ByteList>,
    after: &ByteList,
    max: u32,
) -> Result<KeyList, AllocError>
    ensures { IfOk result (λ l. l ≡ listed after.now max objects.now.entries) }
{
    let mut keys = KeyList::new(alloc);
    for (key, bytes) in objects.range((Bound::Excluded(after), Bound::Unbounded)) {
        if keys.len() >= max as usize {
            return Ok(keys);
        }
        keys.push(KeyItem {
            key: key.clone()?,
            len: bytes.len() as u64,
        })?;
    }
    Ok(keys)
}
