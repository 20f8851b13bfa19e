//! Lists of bytes that grow, and are written over.
ghost use Rattle.std.specs.Prelude.{◌≡◌, ◌+◌, ◌≤◌, length, vec_len, OnOk};
ghost use Rattle.mld_io.specs.Disk.{written};
ghost use Rattle.disk_model.specs.Sides.{ExtendsTo};

use std::alloc::AllocError;

/// Makes the list at least this long, and leaves what it has. What comes behind it is the piece,
/// which is to be put there in most cases.
pub fn grow(bytes: &mut Vec<u8>, size: usize, piece: &[u8]) -> Result<(), AllocError>
    requires { size ≤ vec_len bytes.old + length piece.now }
    ensures grows { ExtendsTo bytes.old.items bytes.new.items }
    ensures ok { OnOk result (size ≤ vec_len bytes.new) }
{
    if bytes.len() < size {
        bytes.extend_from_slice(piece)?;
    }
    Ok(())
}

/// Puts the piece over the bytes from this place on.
pub fn put(bytes: &mut Vec<u8>, at: usize, piece: &[u8])
    requires { at + length piece.now ≤ vec_len bytes.old }
    ensures len { vec_len bytes.new ≡ vec_len bytes.old }
    ensures written { bytes.new.items ≡ written at piece.now bytes.old.items }
{
    bytes[at..at + piece.len()].copy_from_slice(piece);
}
