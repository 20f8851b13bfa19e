//! What a shell is given, and the banks that it runs on.
use disk_model::MemoryBanks;
use mld_io::{MemorySource, Side};
use std::alloc::{AllocError, Global};

/// The words that name a folder.
pub fn folder_words(alloc: Global) -> Result<Box<Vec<String>>, AllocError> {
    let mut words = Vec::new(alloc);
    words.push(String::from_str(alloc, "folder")?)?;
    Ok(Box::new(alloc, words)?)
}

/// What gives these lines.
pub fn source_of(alloc: Global, lines: &[u8]) -> Result<Box<MemorySource>, AllocError> {
    Ok(Box::new(alloc, MemorySource::new(alloc, lines, &[])?)?)
}

/// Blank banks of which the call of this number fails.
pub fn failing_banks(alloc: Global, call: u64) -> Result<MemoryBanks, AllocError> {
    let mut banks = MemoryBanks::blank(alloc);
    banks.fail_call(call)?;
    Ok(banks)
}

/// Banks with the bytes of these, of which no call fails.
pub fn copy_of(alloc: Global, banks: &MemoryBanks) -> Result<MemoryBanks, AllocError> {
    MemoryBanks::with_bytes(alloc, banks.bytes(Side::A), banks.bytes(Side::B))
}
