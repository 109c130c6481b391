//! Readers of fields, each with the range that its rule gives.
ghost use Rattle.std.specs.Prelude.{◌≡◌, ◌≢◌, ◌≤◌, ◌^◌, ◌*◌, ◌<◌, IfOk, All, IsTrue, length};
ghost use Rattle.std.specs.Int.{w16, w32, w64};
ghost use Rattle.std.specs.Option.{ForSome};
ghost use Rattle.s3_rows.specs.Rows.{IsBlockSize};
ghost use Rattle.frame_fields.specs.Format.{Gives, number, between};
ghost use Rattle.frame_fields.specs.Unread.{rest_of};
ghost use Rattle.frame_fields.specs.Fields.{mode_field};
ghost use Rattle.keeper_dump.specs.RowFields.{is_text, id_field, count_field, next_field, blockno_field, block_size_field, file_size_field, text_field, value_field, slot_number_field, slot_length_field, revision_field, sizes_field, state_field, generations_field, parameters_field, object_size_field};

use frame_fields::FrameFault;
use frame_fields::fields::{self, Found, Unread};
use s3_base::{ByteList, LIMIT};
use s3_rows::{Params, State};
use std::alloc::Global;

/// The size that stands for that of an object which is not uploaded.
pub const NO_SIZE: u32 = u32::MAX;

/// The longest stored form of a block, in bytes.
const MAX_BLOCK: u32 = 10_485_760;

/// The longest value of an attribute, in bytes.
const MAX_VALUE: u32 = 65_536;

/// The most slots of a cache disk.
const MAX_SLOTS: u32 = 65_536;

/// The longest cache disk, in bytes.
const MAX_DISK: u64 = 1 << 32;

/// A number of eight bytes from `low` to `high`.
pub fn u64_in(low: u64, high: u64, unread: Unread<'_>) -> Found<'_, u64>
    ensures read { Gives (λ x. (x.0, rest_of x.1)) result ((number w64 (between low high)).read (rest_of unread.entry)) }
    ensures least { IfOk result (λ x. low ≤ x.0) }
    ensures most { IfOk result (λ x. x.0 ≤ high) }
{
    fields::u64_between(low, high, unread)
}

/// A number of two bytes from `low` to `high`.
#[tactic(auto, unfolding(frame_fields::specs::Fields::u16_field))]
fn u16_in(low: u16, high: u16, unread: Unread<'_>) -> Found<'_, u16>
    ensures read { Gives (λ x. (x.0, rest_of x.1)) result ((number w16 (between low high)).read (rest_of unread.entry)) }
    ensures least { IfOk result (λ x. low ≤ x.0) }
    ensures most { IfOk result (λ x. x.0 ≤ high) }
{
    let (number, after) = fields::u16_of(unread)?;
    if number < low || number > high {
        return Err(FrameFault::Bad(unread.place));
    }
    Ok((number, after))
}

/// A number of four bytes from `low` to `high`.
fn u32_in(low: u32, high: u32, unread: Unread<'_>) -> Found<'_, u32>
    ensures read { Gives (λ x. (x.0, rest_of x.1)) result ((number w32 (between low high)).read (rest_of unread.entry)) }
    ensures least { IfOk result (λ x. low ≤ x.0) }
    ensures most { IfOk result (λ x. x.0 ≤ high) }
{
    fields::u32_between(low, high, unread)
}

/// The number of an inode, a name, a block or an object.
#[tactic(auto, unfolding(crate::specs::RowFields::id_field))]
pub fn id_of(unread: Unread<'_>) -> Found<'_, u64>
    ensures read { Gives (λ x. (x.0, rest_of x.1)) result (id_field.read (rest_of unread.entry)) }
    ensures least { IfOk result (λ x. 0 < x.0) }
    ensures most { IfOk result (λ x. x.0 < 2 ^ 62) }
{
    u64_in(1, LIMIT - 1, unread)
}

/// A time, a count or a generation.
#[tactic(auto, unfolding(crate::specs::RowFields::count_field))]
pub fn count_of(unread: Unread<'_>) -> Found<'_, u64>
    ensures read { Gives (λ x. (x.0, rest_of x.1)) result (count_field.read (rest_of unread.entry)) }
    ensures most { IfOk result (λ x. x.0 < 2 ^ 62) }
{
    u64_in(0, LIMIT - 1, unread)
}

/// A number that comes next, or a version.
#[tactic(auto, unfolding(crate::specs::RowFields::next_field))]
pub fn next_of(unread: Unread<'_>) -> Found<'_, u64>
    ensures read { Gives (λ x. (x.0, rest_of x.1)) result (next_field.read (rest_of unread.entry)) }
    ensures least { IfOk result (λ x. 0 < x.0) }
    ensures most { IfOk result (λ x. x.0 ≤ 2 ^ 62) }
{
    u64_in(1, LIMIT, unread)
}

/// A block's place in a file.
#[tactic(auto, unfolding(crate::specs::RowFields::blockno_field))]
pub fn blockno_of(unread: Unread<'_>) -> Found<'_, u64>
    ensures read { Gives (λ x. (x.0, rest_of x.1)) result (blockno_field.read (rest_of unread.entry)) }
    ensures most { IfOk result (λ x. x.0 < 2 ^ 38) }
{
    u64_in(0, (1 << 38) - 1, unread)
}

/// The length of a file.
#[tactic(auto, unfolding(crate::specs::RowFields::file_size_field))]
pub fn file_size_of(unread: Unread<'_>) -> Found<'_, u64>
    ensures read { Gives (λ x. (x.0, rest_of x.1)) result (file_size_field.read (rest_of unread.entry)) }
    ensures most { IfOk result (λ x. x.0 ≤ 2 ^ 50) }
{
    u64_in(0, 1 << 50, unread)
}

/// The bytes of a block's stored form.
#[tactic(auto, unfolding(crate::specs::RowFields::block_size_field))]
pub fn block_size_of(unread: Unread<'_>) -> Found<'_, u32>
    ensures read { Gives (λ x. (x.0, rest_of x.1)) result (block_size_field.read (rest_of unread.entry)) }
    ensures least { IfOk result (λ x. 0 < x.0) }
    ensures most { IfOk result (λ x. x.0 ≤ 10485760) }
{
    u32_in(1, MAX_BLOCK, unread)
}

/// A slot of the cache disk.
#[tactic(auto, unfolding(crate::specs::RowFields::slot_number_field))]
pub fn slot_number_of(unread: Unread<'_>) -> Found<'_, u32>
    ensures read { Gives (λ x. (x.0, rest_of x.1)) result (slot_number_field.read (rest_of unread.entry)) }
    ensures most { IfOk result (λ x. x.0 ≤ 65535) }
{
    u32_in(0, MAX_SLOTS - 1, unread)
}

/// How many bytes of a block a slot has.
#[tactic(auto, unfolding(crate::specs::RowFields::slot_length_field))]
pub fn slot_length_of(unread: Unread<'_>) -> Found<'_, u32>
    ensures read { Gives (λ x. (x.0, rest_of x.1)) result (slot_length_field.read (rest_of unread.entry)) }
    ensures most { IfOk result (λ x. x.0 ≤ 10485760) }
{
    u32_in(0, MAX_BLOCK, unread)
}

/// The permission bits of an inode.
#[tactic(auto, unfolding(frame_fields::specs::Fields::mode_field))]
pub fn mode_of(unread: Unread<'_>) -> Found<'_, u16>
    ensures read { Gives (λ x. (x.0, rest_of x.1)) result (mode_field.read (rest_of unread.entry)) }
    ensures most { IfOk result (λ x. x.0 ≤ 4095) }
{
    u16_in(0, 4095, unread)
}

/// Whether no byte is 0.
fn has_no_zero(bytes: &[u8]) -> bool
    ensures test { result ≡ is_text bytes.now }
    ensures all { IsTrue result → All (λ b. b ≢ 0) bytes.now }
{
    bytes.iter().all(|byte| *byte != 0)
}

/// A length up to `limit`, and so many bytes, none of them 0.
#[tactic(auto, unfolding(crate::specs::RowFields::text_field))]
pub fn text_of(alloc: Global, limit: u16, unread: Unread<'_>) -> Found<'_, ByteList>
    ensures read { Gives (λ x. (x.0, rest_of x.1)) result ((text_field limit).read (rest_of unread.entry)) }
    ensures least { IfOk result (λ x. 0 < length x.0) }
    ensures most { IfOk result (λ x. length x.0 ≤ limit) }
    ensures bytes { IfOk result (λ x. All (λ b. b ≢ 0) x.0) }
{
    let (len, unread) = u16_in(1, limit, unread)?;
    let (text, after) = fields::front_of(len as u32, unread)?;
    if !has_no_zero(text) {
        return Err(FrameFault::Bad(unread.place));
    }
    Ok((ByteList::from_slice(alloc, text)?, after))
}

/// The value of an attribute.
#[tactic(auto, unfolding(crate::specs::RowFields::value_field))]
pub fn value_of(alloc: Global, unread: Unread<'_>) -> Found<'_, ByteList>
    ensures read { Gives (λ x. (x.0, rest_of x.1)) result (value_field.read (rest_of unread.entry)) }
    ensures most { IfOk result (λ x. length x.0 ≤ 65536) }
{
    let (len, unread) = u32_in(0, MAX_VALUE, unread)?;
    let (value, unread) = fields::front_of(len, unread)?;
    Ok((ByteList::from_slice(alloc, value)?, unread))
}

/// The size of an object, none where it is not uploaded.
#[tactic(auto, unfolding(crate::specs::RowFields::object_size_field, frame_fields::specs::Fields::u32_field))]
pub fn object_size_of(unread: Unread<'_>) -> Found<'_, Option<u32>>
    ensures read { Gives (λ x. (x.0, rest_of x.1)) result (object_size_field.read (rest_of unread.entry)) }
    ensures range { IfOk result (λ x. ForSome x.0 IsBlockSize) }
{
    let (size, after) = fields::u32_of(unread)?;
    if size == NO_SIZE {
        return Ok((None, after));
    }
    if size < 1 || size > MAX_BLOCK {
        return Err(FrameFault::Bad(unread.place));
    }
    Ok((Some(size), after))
}

/// The revision of the tables.
#[tactic(auto, unfolding(crate::specs::RowFields::revision_field))]
pub fn revision_of(unread: Unread<'_>) -> Found<'_, u32>
    ensures read { Gives (λ x. (x.0, rest_of x.1)) result (revision_field.read (rest_of unread.entry)) }
    ensures one { IfOk result (λ x. x.0 ≡ 1) }
{
    u32_in(1, 1, unread)
}

/// The size of blocks, and how many slots of this size the cache disk has.
#[tactic(auto, unfolding(crate::specs::RowFields::sizes_field, frame_fields::specs::Fields::u32_field))]
pub fn sizes_of(unread: Unread<'_>) -> Found<'_, (u32, u32)>
    ensures read { Gives (λ x. (x.0, rest_of x.1)) result (sizes_field.read (rest_of unread.entry)) }
    ensures least { IfOk result (λ x. 4096 ≤ x.0.0) }
    ensures greatest { IfOk result (λ x. x.0.0 ≤ 10485760) }
    ensures slots { IfOk result (λ x. x.0.1 ≤ 65536) }
    ensures disk { IfOk result (λ x. x.0.1 * x.0.0 ≤ 2 ^ 32) }
{
    let (block_size, unread) = u32_in(4096, MAX_BLOCK, unread)?;
    let (slots, after) = fields::u32_of(unread)?;
    if slots > MAX_SLOTS || slots as u64 * block_size as u64 > MAX_DISK {
        return Err(FrameFault::Bad(unread.place));
    }
    Ok(((block_size, slots), after))
}

#[tactic(auto, unfolding(crate::specs::RowFields::state_field))]
pub fn state_of(unread: Unread<'_>) -> Found<'_, State>
    ensures { Gives (λ x. (x.0, rest_of x.1)) result (state_field.read (rest_of unread.entry)) }
{
    let (code, after) = fields::byte_of(unread)?;
    match code {
        0 => Ok((State::Clean, after)),
        1 => Ok((State::Mounted, after)),
        2 => Ok((State::Restored, after)),
        _ => Err(FrameFault::Bad(unread.place)),
    }
}

/// The generation that was last begun, and the last that is stored whole.
#[tactic(auto, unfolding(crate::specs::RowFields::generations_field))]
pub fn generations_of(unread: Unread<'_>) -> Found<'_, (u64, u64)>
    ensures read { Gives (λ x. (x.0, rest_of x.1)) result (generations_field.read (rest_of unread.entry)) }
    ensures most { IfOk result (λ x. x.0.0 < 2 ^ 62) }
    ensures done { IfOk result (λ x. x.0.1 ≤ x.0.0) }
{
    let (generation, unread) = count_of(unread)?;
    let (last_done, unread) = u64_in(0, generation, unread)?;
    Ok(((generation, last_done), unread))
}

/// The parameters.
pub fn params_of(unread: Unread<'_>) -> Found<'_, Params>
    ensures { Gives (λ x. (x.0, rest_of x.1)) result (parameters_field.read (rest_of unread.entry)) }
{
    let (revision, unread) = revision_of(unread)?;
    let ((block_size, slots), unread) = sizes_of(unread)?;
    let (state, unread) = state_of(unread)?;
    let (next_inode, unread) = next_of(unread)?;
    let (next_name, unread) = next_of(unread)?;
    let (next_block, unread) = next_of(unread)?;
    let (next_object, unread) = next_of(unread)?;
    let ((generation, last_done), unread) = generations_of(unread)?;
    let params = Params {
        revision,
        block_size,
        slots,
        state,
        next_inode,
        next_name,
        next_block,
        next_object,
        generation,
        last_done,
    };
    Ok((params, unread))
}
