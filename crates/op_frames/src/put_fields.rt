//! Writers of an operation's code and its fields: of a shape that several operations share, or of one operation.
ghost use Rattle.std.specs.Prelude.{◌≡◌, ◌++◌, ◌∷◌, IsTrue, OnOk};
ghost use Rattle.op_frames.specs.Operations.{set_flag_field, lookup_fields, getattr_fields, utimes_fields, create_fields, rename_fields, link_fields, symlink_fields, read_fields, write_fields, readdir_fields, setxattr_fields};

use crate::SetFlag;
use frame_fields::writers::{Put, put_data, put_name, put_u16, put_u32, put_u64};
use s3_base::ByteList;

#[tactic(auto, unfolding(crate::specs::Operations::set_flag_field))]
fn put_set_flag(out: &mut ByteList, flag: SetFlag) -> Put
    ensures { OnOk result (out.new ≡ out.old ++ set_flag_field.spell flag) }
{
    out.push(flag as u8)
}

/// An inode or a handle.
pub fn put_inode(out: &mut ByteList, code: u8, inode: u64) -> Put
    ensures { OnOk result (out.new ≡ out.old ++ code ∷ getattr_fields.spell inode) }
{
    out.push(code)?;
    put_u64(out, inode)
}

/// An inode and a name.
#[tactic(auto, using(frame_fields::proofs::FieldLemmas::name_fits, frame_fields::proofs::FieldLemmas::data_fits))]
pub fn put_inode_and_name(out: &mut ByteList, code: u8, inode: u64, name: &ByteList) -> Put
    requires { IsTrue (lookup_fields.allows (inode, name.now)) }
    ensures { OnOk result (out.new ≡ out.old ++ code ∷ lookup_fields.spell (inode, name.now)) }
{
    out.push(code)?;
    put_u64(out, inode)?;
    put_name(out, name)
}

/// An inode and a number.
pub fn put_inode_and_number(out: &mut ByteList, code: u8, inode: u64, number: u64) -> Put
    ensures { OnOk result (out.new ≡ out.old ++ code ∷ utimes_fields.spell (inode, number)) }
{
    out.push(code)?;
    put_u64(out, inode)?;
    put_u64(out, number)
}

/// An entry and its owner: a parent, a name, a mode, a user and a group.
#[tactic(auto, using(frame_fields::proofs::FieldLemmas::name_fits, frame_fields::proofs::FieldLemmas::data_fits))]
pub fn put_entry_and_owner(
    out: &mut ByteList,
    code: u8,
    parent: u64,
    name: &ByteList,
    mode: u16,
    uid: u32,
    gid: u32,
) -> Put
    requires { IsTrue (create_fields.allows (parent, (name.now, (mode, (uid, gid))))) }
    ensures { OnOk result (out.new ≡ out.old ++ code ∷ create_fields.spell (parent, (name.now, (mode, (uid, gid))))) }
{
    out.push(code)?;
    put_u64(out, parent)?;
    put_name(out, name)?;
    put_u16(out, mode)?;
    put_u32(out, uid)?;
    put_u32(out, gid)
}

#[tactic(auto, using(frame_fields::proofs::FieldLemmas::name_fits, frame_fields::proofs::FieldLemmas::data_fits))]
pub fn put_rename(
    out: &mut ByteList,
    parent: u64,
    name: &ByteList,
    new_parent: u64,
    new_name: &ByteList,
) -> Put
    requires { IsTrue (rename_fields.allows (parent, (name.now, (new_parent, new_name.now)))) }
    ensures { OnOk result (out.new ≡ out.old ++ 11 ∷ rename_fields.spell (parent, (name.now, (new_parent, new_name.now)))) }
{
    out.push(11)?;
    put_u64(out, parent)?;
    put_name(out, name)?;
    put_u64(out, new_parent)?;
    put_name(out, new_name)
}

/// An inode, and the parent and the name that it gets.
#[tactic(auto, using(frame_fields::proofs::FieldLemmas::name_fits, frame_fields::proofs::FieldLemmas::data_fits))]
pub fn put_inode_and_entry(
    out: &mut ByteList,
    code: u8,
    inode: u64,
    parent: u64,
    name: &ByteList,
) -> Put
    requires { IsTrue (link_fields.allows (inode, (parent, name.now))) }
    ensures { OnOk result (out.new ≡ out.old ++ code ∷ link_fields.spell (inode, (parent, name.now))) }
{
    out.push(code)?;
    put_u64(out, inode)?;
    put_u64(out, parent)?;
    put_name(out, name)
}

#[tactic(auto, using(frame_fields::proofs::FieldLemmas::name_fits, frame_fields::proofs::FieldLemmas::data_fits))]
pub fn put_symlink(
    out: &mut ByteList,
    parent: u64,
    name: &ByteList,
    target: &ByteList,
    uid: u32,
    gid: u32,
) -> Put
    requires { IsTrue (symlink_fields.allows (parent, (name.now, (target.now, (uid, gid))))) }
    ensures { OnOk result (out.new ≡ out.old ++ 13 ∷ symlink_fields.spell (parent, (name.now, (target.now, (uid, gid))))) }
{
    out.push(13)?;
    put_u64(out, parent)?;
    put_name(out, name)?;
    put_name(out, target)?;
    put_u32(out, uid)?;
    put_u32(out, gid)
}

pub fn put_read(out: &mut ByteList, handle: u64, offset: u64, length: u32) -> Put
    ensures { OnOk result (out.new ≡ out.old ++ 17 ∷ read_fields.spell (handle, (offset, length))) }
{
    out.push(17)?;
    put_u64(out, handle)?;
    put_u64(out, offset)?;
    put_u32(out, length)
}

#[tactic(auto, using(frame_fields::proofs::FieldLemmas::name_fits, frame_fields::proofs::FieldLemmas::data_fits))]
pub fn put_write(out: &mut ByteList, handle: u64, offset: u64, bytes: &ByteList) -> Put
    requires { IsTrue (write_fields.allows (handle, (offset, bytes.now))) }
    ensures { OnOk result (out.new ≡ out.old ++ 18 ∷ write_fields.spell (handle, (offset, bytes.now))) }
{
    out.push(18)?;
    put_u64(out, handle)?;
    put_u64(out, offset)?;
    put_data(out, bytes)
}

/// An inode, the name after which a page begins, and the most items of the page.
#[tactic(auto, using(frame_fields::proofs::FieldLemmas::name_fits, frame_fields::proofs::FieldLemmas::data_fits))]
pub fn put_inode_and_page(
    out: &mut ByteList,
    code: u8,
    inode: u64,
    after: &ByteList,
    max: u16,
) -> Put
    requires { IsTrue (readdir_fields.allows (inode, (after.now, max))) }
    ensures { OnOk result (out.new ≡ out.old ++ code ∷ readdir_fields.spell (inode, (after.now, max))) }
{
    out.push(code)?;
    put_u64(out, inode)?;
    put_name(out, after)?;
    put_u16(out, max)
}

#[tactic(auto, using(frame_fields::proofs::FieldLemmas::name_fits, frame_fields::proofs::FieldLemmas::data_fits))]
pub fn put_setxattr(
    out: &mut ByteList,
    inode: u64,
    name: &ByteList,
    flag: SetFlag,
    value: &ByteList,
) -> Put
    requires { IsTrue (setxattr_fields.allows (inode, (name.now, (flag, value.now)))) }
    ensures { OnOk result (out.new ≡ out.old ++ 22 ∷ setxattr_fields.spell (inode, (name.now, (flag, value.now)))) }
{
    out.push(22)?;
    put_u64(out, inode)?;
    put_name(out, name)?;
    put_set_flag(out, flag)?;
    put_data(out, value)
}
