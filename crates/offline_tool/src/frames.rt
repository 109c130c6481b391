//! Frames of a replay's input, read one at a time.
ghost use Rattle.std.specs.Prelude.{◌≡◌, ◌+◌, ◌-◌, ◌<◌, ◌≤◌, ◌^◌, ℕ, List, min, take, length, Some, IsTrue, IfOk, OnErr, is_err};
ghost use Rattle.s3_base.specs.Faults.{HasCause, HasRisen};
ghost use Rattle.s3_base.specs.Stream.{Stream};
ghost use Rattle.frame_fields.specs.Frames as frames;
ghost use Rattle.offline_tool.specs.Reading.{FillsFront, TakesFrame};

use s3_base::{Failed, Source};

/// The length in front of a frame, in bytes.
const HEAD: usize = 4;

/// The longest body of a frame, in bytes.
const MAX_BODY: usize = 262_144;

/// The longest frame, in bytes.
pub const MAX_FRAME: usize = HEAD + MAX_BODY;

/// Takes bytes until the buffer is full or the input ends, and says how many.
fn fill<S: Source>(source: &mut S, buffer: &mut [u8]) -> Result<usize, Failed>
    ensures cause { HasCause (S.faults source.old) (S.faults source.new) (is_err result) }
    ensures within { IfOk result (λ n. n ≤ length buffer.old) }
    ensures filled { IfOk result (λ n. (s : Stream) → S.told source.old ≡ Some s → FillsFront n buffer.new s (S.told source.new)) }
{
    let mut filled = 0;
    while filled < buffer.len() {
        let n = source.next(&mut buffer[filled..])?;
        if n == 0 {
            break;
        }
        filled += n;
    }
    Ok(filled)
}

/// The length that the first four bytes of a frame say.
fn said_length(head: &[u8]) -> usize
    requires { 4 ≤ length head.now }
    ensures { result ≡ frames.said_length head.now }
{
    u32::from_be_bytes([head[0], head[1], head[2], head[3]]) as usize
}

/// Takes the next frame into the front of the buffer, and says how many bytes it has: fewer than a whole frame where
/// the input ends inside it, or after `room` bytes, and four where its length is outside its rule.
pub fn take_frame<S: Source>(source: &mut S, buffer: &mut [u8], room: u64) -> Result<usize, Failed>
    requires { length buffer.old ≡ 4 + 262144 }
    ensures cause { HasCause (S.faults source.old) (S.faults source.new) (is_err result) }
    ensures within { IfOk result (λ n. (n ≤ 4 + 262144) × (n ≤ room)) }
    ensures taken { IfOk result (λ n. (s : Stream) → S.told source.old ≡ Some s → TakesFrame n buffer.new (take room s.left) s (S.told source.new)) }
{
    let head = (HEAD as u64).min(room) as usize;
    let first = fill(source, &mut buffer[..head])?;
    if first < HEAD {
        return Ok(first);
    }
    let body = said_length(&buffer[..HEAD]);
    if body > MAX_BODY {
        return Ok(HEAD);
    }
    let rest = (body as u64).min(room - HEAD as u64) as usize;
    let second = fill(source, &mut buffer[HEAD..HEAD + rest])?;
    Ok(HEAD + second)
}
