//! The checks that need no tables.
ghost use Rattle.std.specs.Prelude.{◌≡◌, ◌<◌, ◌≤◌, ◌==◌, ◌||◌, ℕ, length, IfOk};
ghost use Rattle.std.specs.List.{list_any};
ghost use Rattle.s3_base.specs.Names.{is_forbidden_name};
ghost use Rattle.plain_tree.specs.Tree.{Tree};
ghost use Rattle.plain_tree.specs.Checks.{name_check, attribute_name_check, target_check, mode_check, page_check, time_check, read_length_check, write_end_check, size_check, value_check, flag_check, keep_check, root_check, cache_check};
ghost use Rattle.op_checks.specs.Checks.{Checks};

use op_frames::SetFlag;
use s3_base::{ByteList, Errno, LIMIT};

/// The longest name of an entry or an attribute, in bytes.
const MAX_NAME: usize = 255;

/// The longest target of a symbolic link, in bytes.
const MAX_TARGET: usize = 4095;

/// The permission bits of a mode.
const MODE_BITS: u16 = 0o7777;

/// The most entries or names that one page has.
const MAX_PAGE: u16 = 256;

/// The most bytes that one read gives.
const MAX_READ: u32 = 131_072;

/// The longest file, in bytes.
const MAX_SIZE: u64 = 1 << 50;

/// The longest value of an attribute, in bytes.
const MAX_VALUE: usize = 65_536;

/// The fewest and the most blocks in the cache, and the most bytes that they take.
const MIN_CACHE: u32 = 64;

const MAX_CACHE: u32 = 4096;

const CACHE_BYTES: u64 = 1 << 32;

/// The root's inode number.
pub const ROOT: u64 = 1;

/// The name of the directory in the root that stays.
const LOST_AND_FOUND: &[u8] = b"lost+found";

fn is_forbidden(name: &[u8]) -> bool
    ensures { result ≡ is_forbidden_name name.now }
{
    name.is_empty()
        || name.iter().any(|&b| b == b'/' || b == 0)
        || name == b".".as_slice()
        || name == b"..".as_slice()
}

/// No bytes, or a zero byte among them.
fn is_no_text(text: &[u8]) -> bool
    ensures { result ≡ (length text.now == 0 || list_any (λ b. b == 0) text.now) }
{
    text.is_empty() || text.contains(&0)
}

/// The name of an entry: ENAMETOOLONG, EINVAL.
pub fn check_name(name: &ByteList) -> Result<(), Errno>
    ensures { Checks result (name_check name.now) }
{
    if name.len() > MAX_NAME {
        return Err(Errno::ENAMETOOLONG);
    }
    if is_forbidden(name.as_slice()) {
        return Err(Errno::EINVAL);
    }
    Ok(())
}

/// The name of an attribute: ENAMETOOLONG, EINVAL.
pub fn check_attribute_name(name: &ByteList) -> Result<(), Errno>
    ensures { Checks result (attribute_name_check name.now) }
{
    if name.len() > MAX_NAME {
        return Err(Errno::ENAMETOOLONG);
    }
    if is_no_text(name.as_slice()) {
        return Err(Errno::EINVAL);
    }
    Ok(())
}

/// The target of a symbolic link: ENAMETOOLONG, EINVAL.
pub fn check_target(target: &ByteList) -> Result<(), Errno>
    ensures { Checks result (target_check target.now) }
{
    if target.len() > MAX_TARGET {
        return Err(Errno::ENAMETOOLONG);
    }
    if is_no_text(target.as_slice()) {
        return Err(Errno::EINVAL);
    }
    Ok(())
}

/// EINVAL where a mode has other bits than the twelve of permissions.
pub fn check_mode(mode: u16) -> Result<(), Errno>
    ensures { Checks result (mode_check mode) }
{
    if mode > MODE_BITS {
        return Err(Errno::EINVAL);
    }
    Ok(())
}

/// EINVAL where a page of no entry is asked for, or of more than 256.
pub fn check_page(max: u16) -> Result<(), Errno>
    ensures check { Checks result (page_check max) }
    ensures some { IfOk result (λ _. 0 < max) }
    ensures few { IfOk result (λ _. max ≤ 256) }
{
    if max == 0 || max > MAX_PAGE {
        return Err(Errno::EINVAL);
    }
    Ok(())
}

/// EINVAL where a time is not below 2^62.
pub fn check_time(time: u64) -> Result<(), Errno>
    ensures { Checks result (time_check time) }
{
    if time >= LIMIT {
        return Err(Errno::EINVAL);
    }
    Ok(())
}

/// EINVAL where more is asked for than one read gives.
pub fn check_read_length(count: u32) -> Result<(), Errno>
    ensures { Checks result (read_length_check count) }
{
    if count > MAX_READ {
        return Err(Errno::EINVAL);
    }
    Ok(())
}

/// EFBIG where a write of some data ends past the longest file.
pub fn check_write_end(offset: u64, bytes: &ByteList) -> Result<(), Errno>
    ensures { Checks result (write_end_check offset bytes.now) }
{
    if bytes.is_empty() {
        return Ok(());
    }
    let fits = match offset.checked_add(bytes.len() as u64) {
        Some(end) => end <= MAX_SIZE,
        None => false,
    };
    if fits { Ok(()) } else { Err(Errno::EFBIG) }
}

/// EFBIG where a file would be longer than the longest.
pub fn check_size(size: u64) -> Result<(), Errno>
    ensures { Checks result (size_check size) }
{
    if size > MAX_SIZE {
        return Err(Errno::EFBIG);
    }
    Ok(())
}

/// E2BIG where the value of an attribute is too long.
pub fn check_value(value: &ByteList) -> Result<(), Errno>
    ensures { Checks result (value_check value.now) }
{
    if value.len() > MAX_VALUE {
        return Err(Errno::E2BIG);
    }
    Ok(())
}

/// EEXIST for a new attribute that is there, ENODATA for an old one that is not.
pub fn check_flag(flag: SetFlag, present: bool) -> Result<(), Errno>
    ensures { Checks result (flag_check flag present) }
{
    match flag {
        SetFlag::New if present => Err(Errno::EEXIST),
        SetFlag::Old if !present => Err(Errno::ENODATA),
        SetFlag::Any | SetFlag::New | SetFlag::Old => Ok(()),
    }
}

/// EPERM for the entry `lost+found` of the root.
pub fn check_keep(parent: u64, name: &ByteList) -> Result<(), Errno>
    ensures { Checks result (keep_check parent name.now) }
{
    if parent == ROOT && name.as_slice() == LOST_AND_FOUND {
        return Err(Errno::EPERM);
    }
    Ok(())
}

/// EPERM for the root.
pub fn check_root(inode: u64) -> Result<(), Errno>
    ensures { Checks result (root_check inode) }
{
    if inode == ROOT {
        return Err(Errno::EPERM);
    }
    Ok(())
}

/// EINVAL for a number of blocks in the cache that is out of its range, or where they take too many bytes.
pub fn check_cache(block_size: u32, entries: u32) -> Result<(), Errno>
    ensures { (t : Tree) → t.block_size ≡ block_size → Checks result (cache_check t entries) }
{
    let bytes = entries as u64 * block_size as u64;
    if entries < MIN_CACHE || entries > MAX_CACHE || bytes > CACHE_BYTES {
        return Err(Errno::EINVAL);
    }
    Ok(())
}
