//! Bytes by their places, as many as there are. Past the end all are zero.
ghost use Rattle.std.specs.Prelude.{◌≡◌, ◌+◌, ◌≤◌, ◌^◌, length, slice_index, OnOk};
ghost use Rattle.s3_devices.specs.DiskBytes.{IsRead, IsWritten};
ghost use Rattle.mem_disk.specs.Memory.{Grows};

use std::alloc::AllocError;

/// The byte at a place that is given as two parts.
fn byte_at(bytes: &[u8], at: u64, more: usize) -> u8
    ensures { result ≡ slice_index bytes.now (at + more) }
{
    match at.checked_add(more as u64) {
        Some(place) if place < bytes.len() as u64 => bytes[place as usize],
        _ => 0,
    }
}

/// Fills the buffer with the bytes from a place on.
pub(crate) fn read_bytes(bytes: &[u8], at: u64, buf: &mut [u8])
    ensures { IsRead at buf.new bytes.now }
{
    for i in 0..buf.len() {
        buf[i] = byte_at(bytes, at, i);
    }
}

/// Appends zeros up to a length.
pub(crate) fn grow(bytes: &mut Vec<u8>, len: usize) -> Result<(), AllocError>
    ensures grows { Grows len bytes.old.items bytes.new.items }
    ensures reaches { OnOk result (len ≤ length bytes.new.items) }
{
    if bytes.len() < len {
        bytes.resize(len, 0)?;
    }
    Ok(())
}

/// Writes bytes from a place on, up to which there are enough.
pub(crate) fn write_bytes(disk: &mut [u8], at: usize, bytes: &[u8])
    requires { at + length bytes.now ≤ length disk.old }
    ensures { IsWritten at bytes.now disk.old disk.new }
{
    for i in 0..bytes.len() {
        disk[at + i] = bytes[i];
    }
}
