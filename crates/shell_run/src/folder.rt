//! The folder that the words name.
ghost use Rattle.std.specs.Prelude.{◌≡◌, ◌≢◌, ◌∷◌, codes, map, Some, IfOk, IsErrOf};
ghost use Rattle.std.specs.String.{string_bytes};
ghost use Rattle.clap.specs.Words.{FailsBy, kind_of, fault_of, first_of, matches_of};
ghost use Rattle.shell_run.specs.FolderWords.{IsFolder, AreRefusedWords, folder_app, shell_name};

use crate::faults::FolderFault;
use clap::error::ErrorKind;
use clap::{Arg, ArgAction, Command, Error};
use std::alloc::{AllocError, Global};
use text_rules::Text;

/// The name of the program.
const SHELL_NAME: &str = "mld_shell";

/// Reads the words behind the program's name: the value of DIR, the one argument.
///
/// # Errors
/// `Usage` where they are anything else, among them no words, `--help` and a word with `-` in front. A `--` before the folder is taken.
pub fn read_folder(alloc: Global, words: &Vec<String>) -> Result<Text, FolderFault>
    ensures ok { IfOk result (IsFolder (map (λ w. string_bytes w) words.now.items)) }
    ensures usage { IsErrOf result FolderFault.Usage → AreRefusedWords (map (λ w. string_bytes w) words.now.items) }
{
    let named = named_words(alloc, words)?;
    match value_given(alloc, named.as_slice()) {
        Ok(folder) => Ok(Text::new(alloc, folder)?),
        Err(error) => Err(fault_told(&error)),
    }
}

/// The words behind the name of the program.
fn named_words<'a>(alloc: Global, words: &'a Vec<String>) -> Result<Vec<&'a str>, AllocError>
    ensures { IfOk result
        (λ named. map (λ w. w.now) named.items ≡ shell_name ∷ map (λ w. string_bytes w) words.entry.now.items) }
{
    let mut named = Vec::new(alloc);
    named.push(SHELL_NAME)?;
    for word in words {
        named.push(word.as_str())?;
    }
    Ok(named)
}

/// What clap gives for DIR.
fn value_given<'a>(alloc: Global, words: &'a [&'a str]) -> Result<&'a str, Error>
    ensures ok { IfOk result (λ folder. first_of (codes "DIR")
        (matches_of folder_app (map (λ w. w.now) words.entry.now)) ≡ Some folder.now) }
    ensures kinds { FailsBy (fault_of folder_app (map (λ w. w.now) words.entry.now)) result }
{
    let folder = Arg::new(alloc, "DIR").required(true).action(ArgAction::Set);
    let command = Command::new(alloc, SHELL_NAME).arg(folder)?;
    let matches = command.try_get_matches_from(words)?;
    let Some(folder) = matches.get_str("DIR") else {
        unreachable!()
    };
    Ok(folder)
}

/// A refusal for another cause than memory is one of the words.
fn fault_told(error: &Error) -> FolderFault
    ensures { result ≡ FolderFault.Usage → kind_of error.now ≢ ErrorKind.OutOfMemory }
{
    if error.kind() == ErrorKind::OutOfMemory {
        return FolderFault::NoMemory;
    }
    FolderFault::Usage
}
