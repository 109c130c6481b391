//! Readers of plain fields, from left to right.
ghost use Rattle.std.specs.Prelude.{◌≡◌, ◌-◌, ◌<◌, ◌≤◌, ◌^◌, length, IfOk};
ghost use Rattle.std.specs.Int.{w16, w32, w64, from_be_bytes};
ghost use Rattle.frame_fields.specs.Format.{Gives, front, byte, number, always, between};
ghost use Rattle.frame_fields.specs.Fields.{u16_field, u32_field, u64_field, name_field, data_length_field, data_field, pass_field, time_field, mode_field, item_count_field, short_name_field, digest_field, digest_or_none_field, node_kind_field, flag_field};
ghost use Rattle.frame_fields.specs.Frames.{length_field};
ghost use Rattle.frame_fields.specs.Unread.{rest_of};

use crate::FrameFault;
use s3_base::{ByteList, Kind, LIMIT};
use std::alloc::Global;

/// The longest data of a read or a write, in bytes.
pub const MAX_DATA: u32 = 131_072;

/// The longest body of a frame, in bytes.
pub const MAX_BODY: u32 = 262_144;

/// Where a reader stands in a frame.
#[derive(Clone, Copy, Debug)]
pub struct Unread<'a> {
    /// The place of the next byte, counted from the frame's first.
    pub place: u64,
    /// The place behind the frame's last byte, by its length.
    pub end: u64,
    /// The bytes from the place on, which may be fewer than the frame's or more.
    pub bytes: &'a [u8],
}

/// A value and where the reader stands behind it, or the first fault.
pub type Found<'a, T> = Result<(T, Unread<'a>), FrameFault>;

/// So many bytes.
pub fn front_of(n: u32, unread: Unread<'_>) -> Found<'_, &[u8]>
    ensures read { Gives (λ x. (x.0.now, rest_of x.1)) result (front n (rest_of unread.entry)) }
    ensures len { IfOk result (λ x. length x.0.now ≡ n) }
{
    if unread.end.saturating_sub(unread.place) < n as u64 {
        return Err(FrameFault::Bad(unread.place));
    }
    if unread.bytes.len() < n as usize {
        return Err(FrameFault::Short);
    }
    let (front, bytes) = unread.bytes.split_at(n as usize);
    Ok((
        front,
        Unread {
            place: unread.place + n as u64,
            end: unread.end,
            bytes,
        },
    ))
}

pub fn byte_of(unread: Unread<'_>) -> Found<'_, u8>
    ensures { Gives (λ x. (x.0, rest_of x.1)) result ((byte always).read (rest_of unread.entry)) }
{
    let (bytes, unread) = front_of(1, unread)?;
    Ok((bytes[0], unread))
}

/// A byte from `low` to `high`.
pub fn u8_between(low: u8, high: u8, unread: Unread<'_>) -> Found<'_, u8>
    ensures { Gives (λ x. (x.0, rest_of x.1)) result ((byte (between low high)).read (rest_of unread.entry)) }
{
    let (number, after) = byte_of(unread)?;
    if number < low || number > high {
        return Err(FrameFault::Bad(unread.place));
    }
    Ok((number, after))
}

fn u32_from(bytes: &[u8]) -> u32
    requires { length bytes.now ≡ 4 }
    ensures { result ≡ from_be_bytes w32 bytes.now }
{
    u32::from_be_bytes([bytes[0], bytes[1], bytes[2], bytes[3]])
}

fn u64_from(bytes: &[u8]) -> u64
    requires { length bytes.now ≡ 8 }
    ensures { result ≡ from_be_bytes w64 bytes.now }
{
    u64::from_be_bytes([
        bytes[0], bytes[1], bytes[2], bytes[3], bytes[4], bytes[5], bytes[6], bytes[7],
    ])
}

#[tactic(auto, unfolding(crate::specs::Fields::u16_field))]
pub fn u16_of(unread: Unread<'_>) -> Found<'_, u16>
    ensures { Gives (λ x. (x.0, rest_of x.1)) result (u16_field.read (rest_of unread.entry)) }
{
    let (bytes, unread) = front_of(2, unread)?;
    Ok((u16::from_be_bytes([bytes[0], bytes[1]]), unread))
}

/// A number of two bytes, up to `high`.
pub fn u16_up_to(high: u16, unread: Unread<'_>) -> Found<'_, u16>
    ensures { Gives (λ x. (x.0, rest_of x.1)) result ((number w16 (between 0 high)).read (rest_of unread.entry)) }
{
    let (bytes, after) = front_of(2, unread)?;
    let number = u16::from_be_bytes([bytes[0], bytes[1]]);
    if number > high {
        return Err(FrameFault::Bad(unread.place));
    }
    Ok((number, after))
}

#[tactic(auto, unfolding(crate::specs::Fields::u32_field))]
pub fn u32_of(unread: Unread<'_>) -> Found<'_, u32>
    ensures { Gives (λ x. (x.0, rest_of x.1)) result (u32_field.read (rest_of unread.entry)) }
{
    let (bytes, unread) = front_of(4, unread)?;
    Ok((u32_from(bytes), unread))
}

#[tactic(auto, unfolding(crate::specs::Fields::u64_field))]
pub fn u64_of(unread: Unread<'_>) -> Found<'_, u64>
    ensures { Gives (λ x. (x.0, rest_of x.1)) result (u64_field.read (rest_of unread.entry)) }
{
    let (bytes, unread) = front_of(8, unread)?;
    Ok((u64_from(bytes), unread))
}

/// A number from `low` to `high`.
pub fn u64_between(low: u64, high: u64, unread: Unread<'_>) -> Found<'_, u64>
    ensures { Gives (λ x. (x.0, rest_of x.1)) result ((number w64 (between low high)).read (rest_of unread.entry)) }
{
    let (bytes, after) = front_of(8, unread)?;
    let number = u64_from(bytes);
    if number < low || number > high {
        return Err(FrameFault::Bad(unread.place));
    }
    Ok((number, after))
}

#[tactic(auto, unfolding(crate::specs::Fields::pass_field))]
pub fn pass_of(unread: Unread<'_>) -> Found<'_, u64>
    ensures { Gives (λ x. (x.0, rest_of x.1)) result (pass_field.read (rest_of unread.entry)) }
{
    u64_between(1, LIMIT - 1, unread)
}

#[tactic(auto, unfolding(crate::specs::Fields::time_field))]
pub fn time_of(unread: Unread<'_>) -> Found<'_, u64>
    ensures { Gives (λ x. (x.0, rest_of x.1)) result (time_field.read (rest_of unread.entry)) }
{
    u64_between(0, LIMIT - 1, unread)
}

/// A number of four bytes from `low` to `high`.
pub fn u32_between(low: u32, high: u32, unread: Unread<'_>) -> Found<'_, u32>
    ensures { Gives (λ x. (x.0, rest_of x.1)) result ((number w32 (between low high)).read (rest_of unread.entry)) }
{
    let (bytes, after) = front_of(4, unread)?;
    let number = u32_from(bytes);
    if number < low || number > high {
        return Err(FrameFault::Bad(unread.place));
    }
    Ok((number, after))
}

#[tactic(auto, unfolding(crate::specs::Frames::length_field))]
pub fn length_of(unread: Unread<'_>) -> Found<'_, u32>
    ensures { Gives (λ x. (x.0, rest_of x.1)) result (length_field.read (rest_of unread.entry)) }
{
    u32_between(1, MAX_BODY, unread)
}

#[tactic(auto, unfolding(crate::specs::Fields::data_length_field))]
fn data_length_of(unread: Unread<'_>) -> Found<'_, u32>
    ensures { Gives (λ x. (x.0, rest_of x.1)) result (data_length_field.read (rest_of unread.entry)) }
{
    u32_between(0, MAX_DATA, unread)
}

#[tactic(auto, unfolding(crate::specs::Fields::name_field))]
pub fn name_of(alloc: Global, unread: Unread<'_>) -> Found<'_, ByteList>
    ensures { Gives (λ x. (x.0, rest_of x.1)) result (name_field.read (rest_of unread.entry)) }
{
    let (len, unread) = u16_of(unread)?;
    let (name, unread) = front_of(len as u32, unread)?;
    Ok((ByteList::from_slice(alloc, name)?, unread))
}

#[tactic(auto, unfolding(crate::specs::Fields::data_field))]
pub fn data_of(alloc: Global, unread: Unread<'_>) -> Found<'_, ByteList>
    ensures { Gives (λ x. (x.0, rest_of x.1)) result (data_field.read (rest_of unread.entry)) }
{
    let (len, unread) = data_length_of(unread)?;
    let (bytes, unread) = front_of(len, unread)?;
    Ok((ByteList::from_slice(alloc, bytes)?, unread))
}

/// The permission bits of a node.
#[tactic(auto, unfolding(crate::specs::Fields::mode_field))]
pub fn mode_of(unread: Unread<'_>) -> Found<'_, u16>
    ensures { Gives (λ x. (x.0, rest_of x.1)) result (mode_field.read (rest_of unread.entry)) }
{
    u16_up_to(4095, unread)
}

/// How many items a list has.
#[tactic(auto, unfolding(crate::specs::Fields::item_count_field))]
pub fn item_count_of(unread: Unread<'_>) -> Found<'_, u16>
    ensures { Gives (λ x. (x.0, rest_of x.1)) result (item_count_field.read (rest_of unread.entry)) }
{
    u16_up_to(256, unread)
}

/// A name in a list.
#[tactic(auto, unfolding(crate::specs::Fields::short_name_field))]
pub fn short_name_of(alloc: Global, unread: Unread<'_>) -> Found<'_, ByteList>
    ensures { Gives (λ x. (x.0, rest_of x.1)) result (short_name_field.read (rest_of unread.entry)) }
{
    let (len, unread) = u16_up_to(255, unread)?;
    let (name, unread) = front_of(len as u32, unread)?;
    Ok((ByteList::from_slice(alloc, name)?, unread))
}

#[tactic(auto, unfolding(crate::specs::Fields::digest_field))]
pub fn digest_of(unread: Unread<'_>) -> Found<'_, [u8; 32]>
    ensures { Gives (λ x. (x.0, rest_of x.1)) result (digest_field.read (rest_of unread.entry)) }
{
    let (bytes, unread) = front_of(32, unread)?;
    let mut digest = [0; 32];
    digest.copy_from_slice(bytes);
    Ok((digest, unread))
}

/// A digest, if there is one.
#[tactic(auto, unfolding(crate::specs::Fields::digest_or_none_field))]
pub fn digest_or_none_of(unread: Unread<'_>) -> Found<'_, Option<[u8; 32]>>
    ensures { Gives (λ x. (x.0, rest_of x.1)) result (digest_or_none_field.read (rest_of unread.entry)) }
{
    let (code, unread) = u8_between(0, 1, unread)?;
    if code == 0 {
        return Ok((None, unread));
    }
    let (digest, unread) = digest_of(unread)?;
    Ok((Some(digest), unread))
}

#[tactic(auto, unfolding(crate::specs::Fields::node_kind_field))]
pub fn node_kind_of(unread: Unread<'_>) -> Found<'_, Kind>
    ensures { Gives (λ x. (x.0, rest_of x.1)) result (node_kind_field.read (rest_of unread.entry)) }
{
    let (code, after) = byte_of(unread)?;
    match code {
        1 => Ok((Kind::Directory, after)),
        2 => Ok((Kind::Regular, after)),
        3 => Ok((Kind::Link, after)),
        _ => Err(FrameFault::Bad(unread.place)),
    }
}

/// A bit as a byte.
#[tactic(auto, unfolding(crate::specs::Fields::flag_field))]
pub fn flag_of(unread: Unread<'_>) -> Found<'_, bool>
    ensures { Gives (λ x. (x.0, rest_of x.1)) result (flag_field.read (rest_of unread.entry)) }
{
    let (code, unread) = u8_between(0, 1, unread)?;
    Ok((code == 1, unread))
}
