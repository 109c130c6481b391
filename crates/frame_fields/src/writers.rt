//! Writers of plain fields, each at the end of some bytes.
ghost use Rattle.std.specs.Prelude.{◌≡◌, ◌++◌, ◌<◌, ◌≤◌, ◌^◌, length, OnOk};
ghost use Rattle.frame_fields.specs.Fields.{u16_field, u32_field, u64_field, name_field, data_field, mode_field, item_count_field, short_name_field, digest_field, digest_or_none_field, node_kind_field, flag_field};

use byteorder::{BigEndian, ByteOrder};
use s3_base::{ByteList, Kind};
use std::alloc::AllocError;

/// All was written, or there was no memory for it.
pub type Put = Result<(), AllocError>;

#[tactic(auto, unfolding(crate::specs::Fields::u16_field))]
pub fn put_u16(out: &mut ByteList, number: u16) -> Put
    ensures { OnOk result (out.new ≡ out.old ++ u16_field.spell number) }
{
    let mut bytes = [0; 2];
    BigEndian::write_u16(&mut bytes, number);
    out.extend_from_slice(&bytes)
}

#[tactic(auto, unfolding(crate::specs::Fields::u32_field))]
pub fn put_u32(out: &mut ByteList, number: u32) -> Put
    ensures { OnOk result (out.new ≡ out.old ++ u32_field.spell number) }
{
    let mut bytes = [0; 4];
    BigEndian::write_u32(&mut bytes, number);
    out.extend_from_slice(&bytes)
}

#[tactic(auto, unfolding(crate::specs::Fields::u64_field))]
pub fn put_u64(out: &mut ByteList, number: u64) -> Put
    ensures { OnOk result (out.new ≡ out.old ++ u64_field.spell number) }
{
    let mut bytes = [0; 8];
    BigEndian::write_u64(&mut bytes, number);
    out.extend_from_slice(&bytes)
}

#[tactic(auto, unfolding(crate::specs::Fields::u32_field, crate::specs::Fields::data_field, crate::specs::Fields::data_length_field))]
pub fn put_data(out: &mut ByteList, bytes: &ByteList) -> Put
    requires { length bytes.now ≤ 131072 }
    ensures { OnOk result (out.new ≡ out.old ++ data_field.spell bytes.now) }
{
    put_u32(out, bytes.len() as u32)?;
    out.extend_from_slice(bytes.as_slice())
}

#[tactic(auto, unfolding(crate::specs::Fields::name_field))]
pub fn put_name(out: &mut ByteList, name: &ByteList) -> Put
    requires { length name.now < 2 ^ 16 }
    ensures { OnOk result (out.new ≡ out.old ++ name_field.spell name.now) }
{
    put_u16(out, name.len() as u16)?;
    out.extend_from_slice(name.as_slice())
}

#[tactic(auto, unfolding(crate::specs::Fields::node_kind_field))]
pub fn put_node_kind(out: &mut ByteList, kind: Kind) -> Put
    ensures { OnOk result (out.new ≡ out.old ++ node_kind_field.spell kind) }
{
    let code = match kind {
        Kind::Directory => 1,
        Kind::Regular => 2,
        Kind::Link => 3,
    };
    out.push(code)
}

/// A bit as a byte.
#[tactic(auto, unfolding(crate::specs::Fields::flag_field))]
pub fn put_flag(out: &mut ByteList, flag: bool) -> Put
    ensures { OnOk result (out.new ≡ out.old ++ flag_field.spell flag) }
{
    out.push(u8::from(flag))
}

/// A digest, if there is one.
#[tactic(auto, unfolding(crate::specs::Fields::digest_or_none_field, crate::specs::Fields::digest_field))]
pub fn put_digest_or_none(out: &mut ByteList, digest: &Option<[u8; 32]>) -> Put
    ensures { OnOk result (out.new ≡ out.old ++ digest_or_none_field.spell digest.now) }
{
    match digest {
        None => out.push(0),
        Some(digest) => {
            out.push(1)?;
            out.extend_from_slice(digest)
        }
    }
}

#[tactic(auto, unfolding(crate::specs::Fields::u16_field, crate::specs::Fields::mode_field))]
pub fn put_mode(out: &mut ByteList, mode: u16) -> Put
    ensures { OnOk result (out.new ≡ out.old ++ mode_field.spell mode) }
{
    put_u16(out, mode)
}

/// How many items a list has.
#[tactic(auto, unfolding(crate::specs::Fields::u16_field, crate::specs::Fields::item_count_field))]
pub fn put_item_count(out: &mut ByteList, count: u16) -> Put
    ensures { OnOk result (out.new ≡ out.old ++ item_count_field.spell count) }
{
    put_u16(out, count)
}

/// A name in a list.
#[tactic(auto, unfolding(crate::specs::Fields::u16_field, crate::specs::Fields::short_name_field))]
pub fn put_short_name(out: &mut ByteList, name: &ByteList) -> Put
    requires { length name.now ≤ 255 }
    ensures { OnOk result (out.new ≡ out.old ++ short_name_field.spell name.now) }
{
    put_u16(out, name.len() as u16)?;
    out.extend_from_slice(name.as_slice())
}

#[tactic(auto, unfolding(crate::specs::Fields::digest_field))]
pub fn put_digest(out: &mut ByteList, digest: &[u8; 32]) -> Put
    ensures { OnOk result (out.new ≡ out.old ++ digest_field.spell digest.now) }
{
    out.extend_from_slice(digest)
}
