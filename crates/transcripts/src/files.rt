//! The files of the folder where a program runs.
use std::alloc::{Alloc, AllocError, Global};
use std::fs::{self, Files};
use std::io;

/// The names of the files here that end so, in the order of their bytes.
pub fn names_of_files<R: Files + Alloc<A = Global> + Clone + Drop>(
    rt: &R,
    ending: &str,
) -> io::Result<Vec<String>> {
    let mut names = Vec::new(rt.alloc());
    put_names(rt, &mut names, ending)?;
    names.sort()?;
    Ok(names)
}

/// Puts the names of the files here that end so behind these.
fn put_names<R: Files + Alloc<A = Global> + Clone + Drop>(
    rt: &R,
    names: &mut Vec<String>,
    ending: &str,
) -> io::Result<()> {
    for entry in fs::read_dir(rt, ".")? {
        let entry = entry?;
        put_name(rt.alloc(), names, entry.file_name(), ending)?;
    }
    Ok(())
}

/// Puts a name behind these, where it ends so.
fn put_name(
    alloc: Global,
    names: &mut Vec<String>,
    name: &str,
    ending: &str,
) -> Result<(), AllocError> {
    if name.ends_with(ending) {
        names.push(String::from_str(alloc, name)?)?;
    }
    Ok(())
}
