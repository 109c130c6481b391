ghost use Rattle.std.specs.Prelude.{◌≡◌, IfOk, IfSome};
ghost use Rattle.sha2.specs.Sha256.{sha256};
ghost use Rattle.s3_base.specs.Faults.{HasCause};
ghost use Rattle.s3_rows.specs.Tables.{IsOrdered};
ghost use Rattle.s3_rows.specs.Selections.{block_of_digest};
ghost use Rattle.s3_rows.specs.Told.{IfTold, has_failed};
ghost use Rattle.hash_index.specs.Found.{IsFound, IsLeast};

use s3_rows::{BlockRow, Digest, Keeper, KeeperFault};

/// The SHA-256 of the bytes.
pub fn digest(bytes: &[u8]) -> Digest
    ensures { result.0 ≡ sha256 bytes.now }
{
    Digest(<sha2::Sha256 as sha2::Digest>::digest(bytes))
}

/// The block with this digest, of several the one with the least id.
pub fn find<K: Keeper>(keeper: &mut K, digest: &Digest) -> Result<Option<BlockRow>, KeeperFault>
    ensures row { IfOk result (λ r. IfTold (K.told keeper.old) (λ t. r ≡ block_of_digest t digest.now)) }
    ensures found { IfOk result (λ r. IfTold (K.told keeper.old) (λ t. IsFound digest.now t.blocks r)) }
    ensures least { IfOk result (λ r. IfTold (K.told keeper.old) (λ t. IsOrdered t → IfSome r (IsLeast digest.now t.blocks))) }
    ensures same { K.told keeper.new ≡ K.told keeper.old }
    ensures cause { HasCause (K.faults keeper.old) (K.faults keeper.new) (has_failed result) }
{
    keeper.block_by_digest(digest)
}
