//! The keys of the store under which data objects and generations of the metadata stand.
ghost use Rattle.std.specs.Prelude.{◌≡◌, IfOk};
ghost use Rattle.s3_devices.specs.Keys.{data_key, generation_key};

use s3_base::ByteList;
use std::alloc::{AllocError, Global};

/// The key of a data object.
pub fn data_key(alloc: Global, id: u64) -> Result<ByteList, AllocError>
    ensures { IfOk result (λ key. key ≡ data_key id) }
{
    let key = format!(in alloc; "s3ql_data_{id}")?;
    Ok(ByteList::from(key.into_bytes()))
}

/// The key of a generation, whose number has twenty digits in it.
pub fn generation_key(alloc: Global, generation: u64) -> Result<ByteList, AllocError>
    ensures { IfOk result (λ key. key ≡ generation_key generation) }
{
    let key = format!(in alloc; "s3ql_metadata_{generation:020}")?;
    Ok(ByteList::from(key.into_bytes()))
}
