//! The pieces of a range.
ghost use Rattle.std.specs.Prelude.{◌≡◌, ℕ, ◌+◌, ◌^◌, ◌<◌, ◌≤◌};
ghost use Rattle.block_math.specs.Ranges.{piece_count, piece_start, IsPiece};

use crate::parts::Piece;

/// How many blocks a range touches.
pub fn count(off: u64, len: u64, bs: u32) -> u64
    requires size { 0 < bs }
    requires range { off + len ≤ 2 ^ 50 }
    ensures count { result ≡ piece_count off len bs }
    ensures each { (k : ℕ) → k < result → piece_start off bs k < len }
    ensures whole { len ≤ piece_start off bs result }
{
    if len == 0 {
        return 0;
    }
    let size = bs as u64;
    (off + len - 1) / size + 1 - off / size
}

/// The part of a range, of fewer than 2^32 bytes, that lies in the k-th block that it touches.
pub fn piece(off: u64, len: u64, bs: u32, k: u64) -> Piece
    requires size { 0 < bs }
    requires range { off + len ≤ 2 ^ 50 }
    requires short { len < 2 ^ 32 }
    requires there { k < piece_count off len bs }
    ensures { IsPiece off len bs k result }
{
    let size = bs as u64;
    let blockno = off / size + k;
    let begin = blockno * size;
    let from = begin.saturating_sub(off);
    let end = (begin + size - off).min(len);
    Piece {
        blockno,
        at: (off + from - begin) as u32,
        from: from as u32,
        len: (end - from) as u32,
    }
}
