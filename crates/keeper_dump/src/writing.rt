//! The dump of tables.
ghost use Rattle.std.specs.Prelude.{◌≡◌, ◌++◌, Ok, IfOk, OnOk, IsTrue};
ghost use Rattle.s3_rows.specs.Tables as tables;
ghost use Rattle.frame_fields.specs.Format.{Gives};
ghost use Rattle.frame_fields.specs.Unread.{rest_of};
ghost use Rattle.keeper_dump.specs.Part.{Answers, ◌⟫◌, ◌▹◌, table};
ghost use Rattle.keeper_dump.specs.RowFields.{parameters_field, inode_rows, name_rows, content_rows, inode_block_rows, block_rows, object_rows, target_rows, attr_rows, slot_rows};
ghost use Rattle.keeper_dump.specs.Dump.{magic, tables_part, tables_of, dump_of, dump_read, is_dumped};

use crate::put_fields::put_params;
use crate::table::{Read, put_table, table_of};
use crate::{DumpFault, fields};
use frame_fields::fields::{Found, Unread};
use frame_fields::writers::{Put, put_u64};
use s3_base::ByteList;
use s3_rows::{Params, Tables};
use std::alloc::{AllocError, Global};

/// The first eight bytes, `S3QLDMP1`, as a number.
pub const MAGIC: u64 = 0x5333_514c_444d_5031;

fn put_first_tables(out: &mut ByteList, tables: &Tables) -> Put
    ensures { OnOk result (out.new ≡ out.old ++ (table inode_rows ▹ table name_rows ▹ table content_rows ▹ table inode_block_rows).spell (tables.now.inodes, (tables.now.names, (tables.now.contents, tables.now.inode_blocks)))) }
{
    put_table(out, &tables.inodes)?;
    put_table(out, &tables.names)?;
    put_table(out, &tables.contents)?;
    put_table(out, &tables.inode_blocks)
}

fn put_last_tables(out: &mut ByteList, tables: &Tables) -> Put
    ensures { OnOk result (out.new ≡ out.old ++ (table block_rows ▹ table object_rows ▹ table target_rows ▹ table attr_rows ▹ table slot_rows).spell (tables.now.blocks, (tables.now.objects, (tables.now.targets, (tables.now.attrs, tables.now.slots))))) }
{
    put_table(out, &tables.blocks)?;
    put_table(out, &tables.objects)?;
    put_table(out, &tables.targets)?;
    put_table(out, &tables.attrs)?;
    put_table(out, &tables.slots)
}

/// The dump of tables.
pub fn dump(alloc: Global, tables: &Tables) -> Result<ByteList, AllocError>
    ensures { IfOk result (λ b. b ≡ dump_of tables.now) }
{
    let mut out = ByteList::new(alloc);
    put_u64(&mut out, MAGIC)?;
    put_params(&mut out, &tables.params)?;
    put_first_tables(&mut out, tables)?;
    put_last_tables(&mut out, tables)?;
    Ok(out)
}
