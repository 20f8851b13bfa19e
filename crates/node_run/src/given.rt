//! What clap finds in the words.
ghost use Rattle.std.specs.Prelude.{◌≡◌, IfOk, codes, false, map, option_map};
ghost use Rattle.clap.specs.Words.{FailsBy, all_of, app_of, fault_of, first_of, found_of, matches_of, rows_of, rule_of};
ghost use Rattle.node_run.specs.Words.{iris_rule, node_app, option_rule};

use clap::{Arg, ArgAction, ArgMatches, Command, Error};
use std::alloc::{AllocError, Global};

/// The name of the program.
pub const NODE_NAME: &str = "mld_node";

/// What clap finds in the words, the first of which is the program's name.
pub fn find_in<'a>(alloc: Global, words: &'a [&'a str]) -> Result<ArgMatches<'a>, Error>
    ensures ok { IfOk result
        (λ found. rows_of (found_of found) ≡ matches_of node_app (map (λ w. w.now) words.entry.now)) }
    ensures kinds { FailsBy (fault_of node_app (map (λ w. w.now) words.entry.now)) result }
{
    node_command(alloc)?.try_get_matches_from(words)
}

/// The command of the node.
fn node_command<'a>(alloc: Global) -> Result<Command<'a>, AllocError>
    ensures { IfOk result (λ command. app_of command ≡ node_app) }
{
    let command = Command::new(alloc, NODE_NAME);
    let command = command.arg(option(alloc, "id", true))?;
    let command = command.arg(option(alloc, "domain", true))?;
    let command = command.arg(option(alloc, "role", true))?;
    let command = command.arg(option(alloc, "dir", true))?;
    let command = command.arg(option(alloc, "listen", true))?;
    let command = command.arg(option(alloc, "peer", false))?;
    let command = command.arg(option(alloc, "turns", false))?;
    let command = command.arg(iris(alloc))?;
    Ok(command)
}

/// An option that takes one value.
fn option<'a>(alloc: Global, name: &'a str, required: bool) -> Arg<'a>
    ensures rule { rule_of result ≡ option_rule name.entry.now required }
    ensures local { result.global ≡ false }
{
    Arg::new(alloc, name)
        .long(name)
        .action(ArgAction::Set)
        .required(required)
}

/// The argument that takes the words of no option.
fn iris<'a>(alloc: Global) -> Arg<'a>
    ensures rule { rule_of result ≡ iris_rule }
    ensures local { result.global ≡ false }
{
    Arg::new(alloc, "IRI").action(ArgAction::Append)
}

/// The text of an option, where it is given.
pub fn text_of<'a>(found: &ArgMatches<'a>, name: &str) -> Option<&'a str>
    ensures { option_map (λ text. text.now) result ≡ first_of name.now (rows_of (found_of found.now)) }
{
    found.get_str(name)
}

/// The words of no option, where there are any.
pub fn iris_of<'f, 'a>(found: &'f ArgMatches<'a>) -> Option<&'f [&'a str]>
    ensures { option_map (λ texts. map (λ text. text.now) texts.now) result
        ≡ all_of (codes "IRI") (rows_of (found_of found.now)) }
{
    found.get_strs("IRI")
}
