//! Tables read from their dump.
ghost use Rattle.std.specs.Prelude.{◌≡◌, Ok, IfOk, IsTrue};
ghost use Rattle.s3_rows.specs.Tables as tables;
ghost use Rattle.frame_fields.specs.Format.{Gives};
ghost use Rattle.frame_fields.specs.Unread.{rest_of};
ghost use Rattle.keeper_dump.specs.Part.{Answers, ◌⟫◌, of_field};
ghost use Rattle.keeper_dump.specs.Dump.{tables_part, with_parameters, head_read, tables_behind, dump_of, dump_read, parts_read, is_dumped};

use crate::DumpFault;
use crate::fields::{params_of, u64_in};
use crate::table::{Read, table_of};
use crate::writing::MAGIC;
use frame_fields::fields::{Found, Unread};
use s3_rows::{Params, Tables};
use std::alloc::Global;

/// The nine tables, to which the parameters are added.
#[tactic(auto, unfolding(crate::specs::Dump::tables_part))]
fn all_tables_of(alloc: Global, params: Params, unread: Unread<'_>) -> Read<'_, Tables>
    ensures { Answers (λ x. (x.0, rest_of x.1)) result (with_parameters params (tables_part.read (rest_of unread.entry))) }
{
    let (inodes, unread) = table_of(alloc, unread)?;
    let (names, unread) = table_of(alloc, unread)?;
    let (contents, unread) = table_of(alloc, unread)?;
    let (inode_blocks, unread) = table_of(alloc, unread)?;
    let (blocks, unread) = table_of(alloc, unread)?;
    let (objects, unread) = table_of(alloc, unread)?;
    let (targets, unread) = table_of(alloc, unread)?;
    let (attrs, unread) = table_of(alloc, unread)?;
    let (slots, unread) = table_of(alloc, unread)?;
    let tables = Tables {
        params,
        inodes,
        names,
        contents,
        inode_blocks,
        blocks,
        objects,
        targets,
        attrs,
        slots,
    };
    Ok((tables, unread))
}

/// The magic and the parameters.
#[tactic(auto, unfolding(crate::specs::Dump::magic_field))]
fn head_of(unread: Unread<'_>) -> Found<'_, Params>
    ensures { Gives (λ x. (x.0, rest_of x.1)) result (head_read (rest_of unread.entry)) }
{
    let (_magic, unread) = u64_in(MAGIC, MAGIC, unread)?;
    params_of(unread)
}

/// The magic, the parameters and the tables.
fn parts_of(alloc: Global, unread: Unread<'_>) -> Read<'_, Tables>
    ensures { Answers (λ x. (x.0, rest_of x.1)) result (of_field (head_read (rest_of unread.entry)) ⟫ tables_behind) }
{
    match head_of(unread) {
        Ok((params, unread)) => all_tables_of(alloc, params, unread),
        Err(fault) => Err(DumpFault::from(fault)),
    }
}

/// All parts, and then the end of the bytes.
fn whole_of(alloc: Global, bytes: &[u8]) -> Result<Tables, DumpFault>
    ensures { Answers (λ t. t) result (parts_read bytes.now) }
{
    let start = Unread {
        place: 0,
        end: u64::MAX,
        bytes,
    };
    let (tables, rest) = parts_of(alloc, start)?;
    if !rest.bytes.is_empty() {
        return Err(DumpFault::Bad(rest.place));
    }
    Ok(tables)
}

/// The tables whose dump the bytes are.
pub fn read_dump(alloc: Global, bytes: &[u8]) -> Result<Tables, DumpFault>
    // The tables are those whose dump the bytes are, and each value has one spelling.
    ensures found { IfOk result (λ t. bytes.now ≡ dump_of t) }
    ensures allowed { IfOk result (λ t. IsTrue (is_dumped t)) }
    ensures only { (t : tables.Tables) → IsTrue (is_dumped t) → bytes.now ≡ dump_of t → Answers (λ t. t) result (Ok t) }
    // Which fault it is, and its place.
    ensures exact { Answers (λ t. t) result (dump_read bytes.now) }
{
    whole_of(alloc, bytes)
}
