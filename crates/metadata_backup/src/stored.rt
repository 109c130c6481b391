//! The dump of tables under the key of its generation.
ghost use Rattle.std.specs.Prelude.{◌≡◌, option_map, IfOk, IfErr, OnOk, OnErr};
ghost use Rattle.std.specs.Option.{ForSome};
ghost use Rattle.s3_base.specs.Faults.{HasCause};
ghost use Rattle.s3_devices.specs.Keys as keys;
ghost use Rattle.s3_devices.specs.Objects.{with_object, KeepsOthers};
ghost use Rattle.s3_devices.specs.Told.{Becomes};
ghost use Rattle.keeper_dump.specs.Dump.{dump_of};
ghost use Rattle.metadata_backup.specs.Generations.{has_failed};

use keeper_dump::dump;
use s3_base::ByteList;
use s3_devices::{Link, LinkFault, generation_key, keys_are_short};
use s3_rows::Tables;
use std::alloc::{AllocError, Global};

/// A dump of the tables that is not stored yet, and its generation.
#[derive(Debug, Drop)]
pub struct Dump {
    pub generation: u64,
    pub bytes: ByteList,
}

/// A generation whose dump is stored.
#[derive(Debug, Drop)]
pub struct DumpReceipt {
    pub generation: u64,
}

/// The dump of tables, under the generation that their parameters have.
pub fn take_dump(alloc: Global, tables: &Tables) -> Result<Dump, AllocError>
    ensures bytes { IfOk result (λ d. d.bytes ≡ dump_of tables.now) }
    ensures generation { IfOk result (λ d. ForSome tables.now.params (λ p. d.generation ≡ p.generation)) }
{
    Ok(Dump {
        generation: tables.params.generation,
        bytes: dump(alloc, tables)?,
    })
}

/// Stores a dump under the key of its generation. Where it is refused the dump comes back, and of the store only this key may
/// have changed.
pub fn store_generation<L: Link>(
    alloc: Global,
    link: &mut L,
    dump: Dump,
) -> Result<DumpReceipt, (Dump, LinkFault)>
    ensures held { OnOk result (L.told link.new ≡ option_map (with_object (keys.generation_key dump.generation) dump.bytes) (L.told link.old)) }
    ensures receipt { IfOk result (λ r. r.generation ≡ dump.generation) }
    ensures back { IfErr result (λ e. e.0 ≡ dump) }
    ensures others { OnErr result (Becomes (KeepsOthers (keys.generation_key dump.generation)) (L.told link.old) (L.told link.new)) }
    ensures cause { HasCause (L.faults link.old) (L.faults link.new) (has_failed result) }
{
    keys_are_short();
    let key = match generation_key(alloc, dump.generation) {
        Ok(key) => key,
        Err(refused) => return Err((dump, LinkFault::from(refused))),
    };
    match link.put(&key, &dump.bytes) {
        Ok(()) => Ok(DumpReceipt {
            generation: dump.generation,
        }),
        Err(fault) => Err((dump, fault)),
    }
}
