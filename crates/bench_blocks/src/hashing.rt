//! Pieces that differ in their numbers, and their digests.
ghost use Rattle.std.specs.Prelude.{◌≡◌, ◌++◌};
ghost use Rattle.std.specs.Int.{to_be_bytes, w64};
ghost use Rattle.sha2.specs.Sha256.{sha256};
ghost use Rattle.bench_blocks.specs.Digests.{digests_below};

use sha2::{Digest, Sha256};

/// The digest of a piece: its number in eight bytes, and what stands behind it.
fn hash_piece(number: u64, rest: &[u8]) -> [u8; 32]
    ensures { result ≡ sha256 (to_be_bytes w64 number ++ rest.now) }
{
    let head = number.to_be_bytes();
    let mut hasher = Sha256::new();
    hasher.update(head.as_slice());
    hasher.update(rest);
    hasher.finalize()
}

/// The digest of the digests of the pieces with the numbers from 0 on, so many of them.
pub fn hash_pieces(rest: &[u8], count: u64) -> [u8; 32]
    ensures { result ≡ sha256 (digests_below rest.now count) }
{
    let mut hasher = Sha256::new();
    'pieces: for number in 0..count {
        let digest = hash_piece(number, rest);
        hasher.update(digest.as_slice());
    }
    hasher.finalize()
}
