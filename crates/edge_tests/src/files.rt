//! The device over files.
use crate::made::{boxed, is_failed};
use mld_io::{Banks, FileBanks, Side};
use std::alloc::{AllocError, Global};
use std::fs::{self, File, Files, Permissions};
use std::io;
use std::os::unix::fs::PermissionsExt;
use std::test::Fail;

const FOLDER: &str = "clone";

/// A device over the files of this folder.
fn banks_in<R: Files<File = File> + Drop>(
    rt: R,
    alloc: Global,
    folder: &str,
) -> Result<Box<FileBanks<R>>, AllocError> {
    boxed(alloc, FileBanks::new(rt, alloc, folder)?)
}

/// Whether the sides have so many bytes.
fn have_sizes<R: Files<File = File> + Drop>(banks: &mut FileBanks<R>, a: u64, b: u64) -> bool {
    matches!(banks.len(Side::A), Ok(size) if size == a)
        && matches!(banks.len(Side::B), Ok(size) if size == b)
}

/// What is written: the side, the place, and the piece.
const WRITES: &[(Side, u64, &[u8])] = &[
    (Side::A, 0, b"abcdefg"),
    (Side::B, 0, b"vw"),
    (Side::A, 2, b"CDE"),
    (Side::B, 2, b"xyz"),
];

/// Whether both sides are without bytes, take these with a sync, and take none past the last place.
fn takes<R: Files<File = File> + Drop>(banks: &mut FileBanks<R>) -> bool {
    if !have_sizes(banks, 0, 0) {
        return false;
    }
    for (side, place, piece) in WRITES {
        if banks.write_at(*side, *place, piece).is_err() {
            return false;
        }
    }
    banks.sync(Side::A).is_ok()
        && banks.sync(Side::B).is_ok()
        && is_failed(banks.write_at(Side::A, u64::MAX, b"a"))
}

/// Whether both sides have the bytes that were written, and nothing is read past their end.
fn has<R: Files<File = File> + Drop>(banks: &mut FileBanks<R>) -> bool {
    let (mut a, mut b, mut past) = ([0; 5], [0; 5], [0; 2]);
    have_sizes(banks, 7, 5)
        && banks.read_at(Side::A, 1, &mut a).is_ok()
        && a == *b"bCDEf"
        && banks.read_at(Side::B, 0, &mut b).is_ok()
        && b == *b"vwxyz"
        && is_failed(banks.read_at(Side::B, 4, &mut past))
}

/// Whether each call fails.
fn fails<R: Files<File = File> + Drop>(banks: &mut FileBanks<R>) -> bool {
    is_failed(banks.len(Side::A))
        && is_failed(banks.read_at(Side::B, 0, &mut []))
        && is_failed(banks.write_at(Side::A, 0, b"a"))
        && is_failed(banks.sync(Side::B))
}

/// Whether the folder isn't there.
fn is_missing<R: Files<File = File>>(rt: &R) -> bool {
    matches!(fs::exists(rt, FOLDER), Ok(false))
}

/// Whether a device over a folder that isn't there makes none before a call, and takes bytes.
fn are_taken<R: Files<File = File> + Copy + Drop>(
    rt: R,
    alloc: Global,
) -> Result<bool, AllocError> {
    let mut banks = banks_in(rt, alloc, FOLDER)?;
    Ok(is_missing(&rt) && takes(&mut banks))
}

/// Whether a device over that folder has the bytes.
fn are_kept<R: Files<File = File> + Drop>(rt: R, alloc: Global) -> Result<bool, AllocError> {
    let mut banks = banks_in(rt, alloc, FOLDER)?;
    Ok(has(&mut banks))
}

#[test]
fn files_keep_what_a_bank_was_given(rt: HostRuntime) -> Result<(), Fail> {
    let _ = fs::remove_dir_all(&rt, FOLDER);
    assert!(rt; are_taken(rt, rt.alloc())?);
    assert!(rt; are_kept(rt, rt.alloc())?);
    fs::remove_dir_all(&rt, FOLDER)?;
    Ok(())
}

/// Whether a second device over a folder is refused while the first is open, and not afterwards.
fn are_open_in_turn<R: Files<File = File> + Copy + Drop>(
    rt: R,
    alloc: Global,
    folder: &str,
) -> Result<bool, AllocError> {
    let mut first = banks_in(rt, alloc, folder)?;
    let opened = matches!(first.len(Side::A), Ok(0));
    let mut second = banks_in(rt, alloc, folder)?;
    let refused = fails(&mut second);
    drop(first);
    Ok(opened && refused && matches!(second.len(Side::B), Ok(0)))
}

#[test]
fn one_bank_at_a_time_has_a_folder(rt: HostRuntime) -> Result<(), Fail> {
    let _ = fs::remove_dir_all(&rt, "shared");
    assert!(rt; are_open_in_turn(rt, rt.alloc(), "shared")?);
    fs::remove_dir_all(&rt, "shared")?;
    Ok(())
}

/// Whether a device over this folder opens, both of whose sides are without bytes.
fn opens<R: Files<File = File> + Drop>(
    rt: R,
    alloc: Global,
    folder: &str,
) -> Result<bool, AllocError> {
    let mut banks = banks_in(rt, alloc, folder)?;
    Ok(have_sizes(&mut banks, 0, 0))
}

/// What each may do with what has this name.
fn mode_of<R: Files<File = File>>(rt: &R, path: &str) -> io::Result<u32> {
    Ok(fs::metadata(rt, path)?.permissions().mode() & 0o777)
}

/// Whether the folder and its files have these modes.
fn have_modes<R: Files<File = File>>(rt: &R, folder: u32, a: u32, b: u32) -> io::Result<bool> {
    Ok(
        mode_of(rt, "own")? == folder
            && mode_of(rt, "own/a.bank")? == a
            && mode_of(rt, "own/b.bank")? == b,
    )
}

#[test]
fn what_is_made_is_for_its_owner_alone(rt: HostRuntime) -> Result<(), Fail> {
    let _ = fs::remove_dir_all(&rt, "own");
    assert!(rt; opens(rt, rt.alloc(), "own")?);
    assert!(rt; have_modes(&rt, 0o700, 0o600, 0o600)?);
    // What is there stays as it is.
    fs::set_permissions(&rt, "own", Permissions::from_mode(0o750))?;
    fs::set_permissions(&rt, "own/a.bank", Permissions::from_mode(0o640))?;
    fs::remove_file(&rt, "own/b.bank")?;
    assert!(rt; opens(rt, rt.alloc(), "own")?);
    assert!(rt; have_modes(&rt, 0o750, 0o640, 0o600)?);
    fs::remove_dir_all(&rt, "own")?;
    Ok(())
}

/// Whether each call of a device over this folder fails.
fn fails_in<R: Files<File = File> + Drop>(
    rt: R,
    alloc: Global,
    folder: &str,
) -> Result<bool, AllocError> {
    let mut banks = banks_in(rt, alloc, folder)?;
    Ok(fails(&mut banks))
}

#[test]
fn no_folder_keeps_no_bank(rt: HostRuntime) -> Result<(), Fail> {
    assert!(rt; fails_in(rt, rt.alloc(), "")?);
    // No folder is made in one that isn't there.
    assert!(rt; fails_in(rt, rt.alloc(), "missing/clone")?);
    Ok(())
}
