//! Writers of the fields of rows, each at the end of some bytes.
ghost use Rattle.std.specs.Prelude.{◌≡◌, ◌++◌, ◌<◌, ◌≤◌, ◌^◌, length, OnOk};
ghost use Rattle.s3_rows.specs.declared.params.State.{State};
ghost use Rattle.frame_fields.specs.Format.{◌▸◌};
ghost use Rattle.keeper_dump.specs.RowFields.{id_field, count_field, next_field, blockno_field, block_size_field, file_size_field, text_field, value_field, slot_number_field, slot_length_field, revision_field, sizes_field, state_field, generations_field, object_size_field, parameters_field};

use crate::fields::NO_SIZE;
use frame_fields::writers::{Put, put_u16, put_u32, put_u64};
use s3_base::ByteList;
use s3_rows::{Params, State};

/// The number of an inode, a name, a block or an object.
#[tactic(auto, unfolding(crate::specs::RowFields::id_field, frame_fields::specs::Fields::u64_field))]
pub fn put_id(out: &mut ByteList, number: u64) -> Put
    ensures { OnOk result (out.new ≡ out.old ++ id_field.spell number) }
{
    put_u64(out, number)
}

/// A time, a count or a generation.
#[tactic(auto, unfolding(crate::specs::RowFields::count_field, frame_fields::specs::Fields::u64_field))]
pub fn put_count(out: &mut ByteList, number: u64) -> Put
    ensures { OnOk result (out.new ≡ out.old ++ count_field.spell number) }
{
    put_u64(out, number)
}

/// A number that comes next, or a version.
#[tactic(auto, unfolding(crate::specs::RowFields::next_field, frame_fields::specs::Fields::u64_field))]
pub fn put_next(out: &mut ByteList, number: u64) -> Put
    ensures { OnOk result (out.new ≡ out.old ++ next_field.spell number) }
{
    put_u64(out, number)
}

/// A block's place in a file.
#[tactic(auto, unfolding(crate::specs::RowFields::blockno_field, frame_fields::specs::Fields::u64_field))]
pub fn put_blockno(out: &mut ByteList, number: u64) -> Put
    ensures { OnOk result (out.new ≡ out.old ++ blockno_field.spell number) }
{
    put_u64(out, number)
}

/// The length of a file.
#[tactic(auto, unfolding(crate::specs::RowFields::file_size_field, frame_fields::specs::Fields::u64_field))]
pub fn put_file_size(out: &mut ByteList, number: u64) -> Put
    ensures { OnOk result (out.new ≡ out.old ++ file_size_field.spell number) }
{
    put_u64(out, number)
}

/// The bytes of a block's stored form.
#[tactic(auto, unfolding(crate::specs::RowFields::block_size_field, frame_fields::specs::Fields::u32_field))]
pub fn put_block_size(out: &mut ByteList, number: u32) -> Put
    ensures { OnOk result (out.new ≡ out.old ++ block_size_field.spell number) }
{
    put_u32(out, number)
}

/// A slot of the cache disk.
#[tactic(auto, unfolding(crate::specs::RowFields::slot_number_field, frame_fields::specs::Fields::u32_field))]
pub fn put_slot_number(out: &mut ByteList, number: u32) -> Put
    ensures { OnOk result (out.new ≡ out.old ++ slot_number_field.spell number) }
{
    put_u32(out, number)
}

/// How many bytes of a block a slot has.
#[tactic(auto, unfolding(crate::specs::RowFields::slot_length_field, frame_fields::specs::Fields::u32_field))]
pub fn put_slot_length(out: &mut ByteList, number: u32) -> Put
    ensures { OnOk result (out.new ≡ out.old ++ slot_length_field.spell number) }
{
    put_u32(out, number)
}

/// A length, and so many bytes.
#[tactic(auto, unfolding(crate::specs::RowFields::text_field, frame_fields::specs::Fields::u16_field))]
pub fn put_text(out: &mut ByteList, limit: u16, text: &ByteList) -> Put
    requires { length text.now ≤ limit }
    ensures { OnOk result (out.new ≡ out.old ++ (text_field limit).spell text.now) }
{
    put_u16(out, text.len() as u16)?;
    out.extend_from_slice(text.as_slice())
}

/// The value of an attribute.
#[tactic(auto, unfolding(crate::specs::RowFields::value_field, frame_fields::specs::Fields::u32_field))]
pub fn put_value(out: &mut ByteList, value: &ByteList) -> Put
    requires { length value.now ≤ 65536 }
    ensures { OnOk result (out.new ≡ out.old ++ value_field.spell value.now) }
{
    put_u32(out, value.len() as u32)?;
    out.extend_from_slice(value.as_slice())
}

/// The size of an object, or that it has none.
#[tactic(auto, unfolding(crate::specs::RowFields::object_size_field))]
pub fn put_object_size(out: &mut ByteList, size: Option<u32>) -> Put
    ensures { OnOk result (out.new ≡ out.old ++ object_size_field.spell size) }
{
    match size {
        Some(size) => put_u32(out, size),
        None => put_u32(out, NO_SIZE),
    }
}

#[tactic(auto, unfolding(crate::specs::RowFields::state_field))]
fn put_state(out: &mut ByteList, state: State) -> Put
    ensures { OnOk result (out.new ≡ out.old ++ state_field.spell state) }
{
    let code = match state {
        State::Clean => 0,
        State::Mounted => 1,
        State::Restored => 2,
    };
    out.push(code)
}

/// The revision of the tables.
#[tactic(auto, unfolding(crate::specs::RowFields::revision_field, frame_fields::specs::Fields::u32_field))]
fn put_revision(out: &mut ByteList, revision: u32) -> Put
    ensures { OnOk result (out.new ≡ out.old ++ revision_field.spell revision) }
{
    put_u32(out, revision)
}

/// The size of blocks, and how many slots of this size the cache disk has.
#[tactic(auto, unfolding(crate::specs::RowFields::sizes_field, frame_fields::specs::Fields::u32_field))]
fn put_sizes(out: &mut ByteList, block_size: u32, slots: u32) -> Put
    ensures { OnOk result (out.new ≡ out.old ++ sizes_field.spell (block_size, slots)) }
{
    put_u32(out, block_size)?;
    put_u32(out, slots)
}

/// The generation that was last begun, and the last that is stored whole.
#[tactic(auto, unfolding(crate::specs::RowFields::generations_field, frame_fields::specs::Fields::u64_field))]
fn put_generations(out: &mut ByteList, generation: u64, last_done: u64) -> Put
    ensures { OnOk result (out.new ≡ out.old ++ generations_field.spell (generation, last_done)) }
{
    put_count(out, generation)?;
    put_u64(out, last_done)
}

/// The numbers that come next.
fn put_next_numbers(out: &mut ByteList, params: &Params) -> Put
    ensures { OnOk result (out.new ≡ out.old ++ (next_field ▸ next_field ▸ next_field ▸ next_field).spell (params.now.next_inode, (params.now.next_name, (params.now.next_block, params.now.next_object)))) }
{
    put_next(out, params.next_inode)?;
    put_next(out, params.next_name)?;
    put_next(out, params.next_block)?;
    put_next(out, params.next_object)
}

/// The parameters.
pub fn put_params(out: &mut ByteList, params: &Params) -> Put
    ensures { OnOk result (out.new ≡ out.old ++ parameters_field.spell params.now) }
{
    put_revision(out, params.revision)?;
    put_sizes(out, params.block_size, params.slots)?;
    put_state(out, params.state)?;
    put_next_numbers(out, params)?;
    put_generations(out, params.generation, params.last_done)
}
