//! The bytes of one block.
ghost use Rattle.std.specs.Prelude.{◌≡◌, ◌+◌, ◌≤◌, length, take};
ghost use Rattle.block_math.specs.Blocks.{trimmed, patched, cut_at};

/// How many bytes there are up to the last one that is not zero.
pub fn trimmed_len(bytes: &[u8]) -> usize
    ensures len { result ≡ length (trimmed bytes.now) }
    ensures front { take result bytes.now ≡ trimmed bytes.now }
{
    let mut len = bytes.len();
    while len > 0 && bytes[len - 1] == 0 {
        len -= 1;
    }
    len
}

/// Puts the bytes into the block, from a place on.
pub fn patch(block: &mut [u8], at: u32, bytes: &[u8])
    requires { at + length bytes.now ≤ length block.old }
    ensures { block.new ≡ patched at bytes.now block.old }
{
    let at = at as usize;
    block[at..at + bytes.len()].copy_from_slice(bytes);
}

/// Makes zeros of all bytes from a place on.
pub fn cut(block: &mut [u8], len: u32)
    ensures { block.new ≡ cut_at len block.old }
{
    let len = len as usize;
    if len < block.len() {
        block[len..].fill(0);
    }
}
