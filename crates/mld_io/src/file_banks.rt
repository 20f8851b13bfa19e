//! The device over two files of a folder.
ghost use Rattle.std.specs.Prelude.{◌≡◌, ℕ, ◌+◌, ◌^◌, ◌<◌, None, length, IsOk, IfOk, OnOk, IsErrOf};
ghost use Rattle.mld_io.specs.Arm.{Metered};
ghost use Rattle.mld_io.specs.Files.{file_meter, fresh_meter, unarmed, TellsAnswer};

use crate::banks::{Banks, Side};
use crate::faults::IoFault;
use std::alloc::{AllocError, Global};
use std::fs::{DirBuilder, File, Files, OpenOptions};
use std::io::{self, ErrorKind};
use std::os::fd::AsRawFd;
use std::os::unix::fs::{DirBuilderExt, FileExt, OpenOptionsExt};
use std::path::Path;

/// What a folder that is made lets its owner do, and nobody else: all.
const FOLDER_MODE: u32 = 0o700;

/// What a file that is made lets its owner do, and nobody else: read and write it.
const FILE_MODE: u32 = 0o600;

/// The device over the files `a.bank` and `b.bank` of a folder, which it opens at the first call of
/// any kind, and tries again at the next one where that failed. What is missing of the folder and
/// its files is then made for its owner alone, and what is there keeps its mode; the folder above
/// has to be there. While they are open, no other program and no other device opens them: `a.bank`,
/// which is opened first, is locked. It tells nothing of what the files give, and counts each
/// failure.
#[derive(Drop)]
pub struct FileBanks<R> {
    files: BankFiles<R>,
    faults: u64,
}

impl<R: Files<File = File> + Drop> FileBanks<R> {
    /// The device over the files of this folder, with no fault so far. Over the empty text each
    /// call fails. No call wants memory.
    pub fn new(rt: R, alloc: Global, folder: &str) -> Result<FileBanks<R>, AllocError>
        ensures { IfOk result (λ banks. file_meter banks ≡ fresh_meter) }
    {
        Ok(FileBanks {
            files: BankFiles {
                rt,
                folder: format!(in alloc; "{folder}")?,
                a: format!(in alloc; "{folder}/a.bank")?,
                b: format!(in alloc; "{folder}/b.bank")?,
                opened: None,
            },
            faults: 0,
        })
    }
}

impl<R: Files<File = File> + Drop> Banks for FileBanks<R> {
    ghost log = { λ _. None };

    ghost meter = { file_meter };

    fn len(&mut self, side: Side) -> Result<u64, IoFault> {
        let answer = self.files.measure(side);
        tell(answer, &mut self.faults)
    }

    fn read_at(&mut self, side: Side, at: u64, out: &mut [u8]) -> Result<(), IoFault> {
        let answer = self.files.read(side, at, out);
        tell(answer, &mut self.faults)
    }

    fn write_at(&mut self, side: Side, at: u64, piece: &[u8]) -> Result<(), IoFault> {
        let answer = self.files.write(side, at, piece);
        tell(answer, &mut self.faults)
    }

    fn sync(&mut self, side: Side) -> Result<(), IoFault> {
        let answer = self.files.sync(side);
        tell(answer, &mut self.faults)
    }
}

/// Tells what a file answered: its value, or its failure, which is counted.
fn tell<T: Drop>(answer: io::Result<T>, faults: &mut u64) -> Result<T, IoFault>
    ensures told { TellsAnswer answer faults.old result faults.new }
    ensures meter { (calls : ℕ) → Metered calls (unarmed faults.old) (unarmed faults.new) (IsOk result)
        (IsErrOf result IoFault.Failed) }
{
    match answer {
        Ok(value) => Ok(value),
        Err(_) => {
            *faults = faults.saturating_add(1);
            Err(IoFault::Failed)
        }
    }
}

/// The names of the files, and the files once they are open.
#[derive(Drop)]
struct BankFiles<R> {
    rt: R,
    folder: String,
    a: String,
    b: String,
    opened: Option<Opened>,
}

/// Both files, of which the first is locked.
#[derive(Drop)]
struct Opened {
    a: File,
    b: File,
}

impl<R: Files<File = File> + Drop> BankFiles<R> {
    fn measure(&mut self, side: Side) -> io::Result<u64> {
        Ok(self.file(side)?.metadata()?.len())
    }

    fn read(&mut self, side: Side, at: u64, out: &mut [u8]) -> io::Result<()> {
        self.file(side)?.read_exact_at(out, at)
    }

    /// A piece that would end past 2^64-1 is refused.
    fn write(&mut self, side: Side, at: u64, piece: &[u8]) -> io::Result<()>
        ensures small { OnOk result (at + length piece.now < 2 ^ 64) }
    {
        if at.checked_add(piece.len() as u64).is_none() {
            return Err(ErrorKind::InvalidInput.into());
        }
        self.file(side)?.write_all_at(piece, at)
    }

    /// Makes durable what a later read needs, which is the bytes and how many they are. The time of
    /// the last write is not, so where a byte was written over another, its data alone are.
    fn sync(&mut self, side: Side) -> io::Result<()> {
        self.file(side)?.sync_data()
    }

    /// The file of a side, which is opened where it isn't.
    fn file(&mut self, side: Side) -> io::Result<&File> {
        if self.opened.is_none() {
            self.opened = Some(self.open()?);
        }
        match (&self.opened, side) {
            (Some(files), Side::A) => Ok(&files.a),
            (Some(files), Side::B) => Ok(&files.b),
            (None, _) => Err(ErrorKind::NotFound.into()),
        }
    }

    /// Opens the files, and makes durable that they and their folder are there.
    ///
    /// A file that was just made is empty, and so is each that an earlier program left which ended
    /// between making it and syncing the folders, since nothing is written before that. So the
    /// names of both files are durable where both have bytes, and the folder's where one has.
    fn open(&self) -> io::Result<Opened> {
        let folder = self.folder.as_str();
        if folder.is_empty() {
            return Err(ErrorKind::NotFound.into());
        }
        make_folder(&self.rt, folder)?;
        let a = open_or_make(&self.rt, self.a.as_str())?;
        a.try_lock()?;
        let b = open_or_make(&self.rt, self.b.as_str())?;
        let (no_a, no_b) = (is_empty(&a)?, is_empty(&b)?);
        if no_a || no_b {
            sync_folder(&self.rt, folder)?;
        }
        if no_a && no_b {
            sync_above(&self.rt, folder)?;
        }
        Ok(Opened { a, b })
    }
}

/// Makes a folder for its owner alone, where it is missing.
fn make_folder<R: Files<File = File>>(rt: &R, path: &str) -> io::Result<()> {
    match DirBuilder::new().mode(FOLDER_MODE).create(rt, path) {
        Err(error) if error.kind() != ErrorKind::AlreadyExists => Err(error),
        _ => Ok(()),
    }
}

/// Opens a file to read and write, and makes it for its owner alone where it is missing.
fn open_or_make<R: Files<File = File>>(rt: &R, path: &str) -> io::Result<File> {
    let file = OpenOptions::new()
        .read(true)
        .write(true)
        .create(true)
        .mode(FILE_MODE)
        .open(rt, path)?;
    // What is meant for a standard stream that was closed must not land in the bank.
    if file.as_raw_fd() <= 2 {
        return file.try_clone();
    }
    Ok(file)
}

fn is_empty(file: &File) -> io::Result<bool> {
    Ok(file.metadata()?.len() == 0)
}

/// Makes durable which names stand in the folder above a folder.
fn sync_above<R: Files<File = File>>(rt: &R, folder: &str) -> io::Result<()> {
    match Path::new(folder).parent() {
        Some(above) if !above.as_str().is_empty() => sync_folder(rt, above.as_str()),
        _ => sync_folder(rt, "."),
    }
}

/// Makes durable which names stand in a folder.
fn sync_folder<R: Files<File = File>>(rt: &R, path: &str) -> io::Result<()> {
    File::open(rt, path)?.sync_all()
}
