//! Replies of the shell, and their text: lines that end with LF, added at the end of an output.
ghost use Rattle.std.specs.Prelude.{◌≡◌, ◌++◌, ◌∷◌, [], codes, OnOk, OnErr};
ghost use Rattle.std.specs.Fmt.{decimal};
ghost use Rattle.schedule_text.specs.schedule_model.Characters.{line_end};
ghost use Rattle.shell_session.specs.ShellReply.{shell_text, DidAt, FoundDamage};
ghost use Rattle.shell_session.specs.SessionReplies.{shell_value};

use mld_io::Side;
use schedule_replies::{Reply, push_reply};
use std::alloc::AllocError;
use tree_clock::Dot;

/// What the shell replies to a line.
#[derive(Drop)]
pub enum ShellReply<'a> {
    /// What a clone of a schedule replies too.
    Says(Reply<'a>),
    /// `did DOT`: the operation of the dot was made.
    Did(Dot),
    /// `bad line`: the line is outside the grammar.
    BadLine,
    /// `closed`: no clone is live.
    Closed,
    /// `empty`: the banks keep nothing.
    Empty,
    /// `damaged S P`: the banks are damaged, on this side at this place.
    Damaged(Side, u64),
    /// `not empty`: the banks keep a clone already.
    NotEmpty,
    /// `created`: a clone was made.
    Created,
    /// `ticks spent`: the clone's path has no tick left.
    TicksSpent,
    /// `generations spent`: no generation is left for what the banks keep.
    GenerationsSpent,
}

/// Adds the text of a reply to an output. Where memory is wanting, the output is as it was.
pub fn push_shell_reply(out: &mut Vec<u8>, reply: &ShellReply<'_>) -> Result<(), AllocError>
    ensures ok { OnOk result (out.new.items ≡ out.old.items ++ shell_text (shell_value reply.now)) }
    ensures err { OnErr result (out.new.items ≡ out.old.items) }
{
    match reply {
        ShellReply::Says(said) => push_reply(out, said),
        ShellReply::Did(dot) => push_did(out, dot),
        ShellReply::BadLine => out.extend_from_slice(b"bad line\n"),
        ShellReply::Closed => out.extend_from_slice(b"closed\n"),
        ShellReply::Empty => out.extend_from_slice(b"empty\n"),
        ShellReply::Damaged(side, place) => push_damaged(out, *side, *place),
        ShellReply::NotEmpty => out.extend_from_slice(b"not empty\n"),
        ShellReply::Created => out.extend_from_slice(b"created\n"),
        ShellReply::TicksSpent => out.extend_from_slice(b"ticks spent\n"),
        ShellReply::GenerationsSpent => out.extend_from_slice(b"generations spent\n"),
    }
}

/// `did DOT`.
fn push_did(out: &mut Vec<u8>, dot: &Dot) -> Result<(), AllocError>
    ensures ok { OnOk result (out.new.items ≡ out.old.items ++ shell_text (DidAt dot.now)) }
    ensures err { OnErr result (out.new.items ≡ out.old.items) }
{
    let alloc = *out.allocator();
    let text = format!(in alloc; "did {dot}\n")?;
    out.extend_from_slice(text.as_bytes())
}

/// `damaged S P`.
fn push_damaged(out: &mut Vec<u8>, side: Side, place: u64) -> Result<(), AllocError>
    ensures ok { OnOk result (out.new.items ≡ out.old.items ++ shell_text (FoundDamage side place)) }
    ensures err { OnErr result (out.new.items ≡ out.old.items) }
{
    match side {
        Side::A => push_damage(out, "a", place),
        Side::B => push_damage(out, "b", place),
    }
}

/// That damage was found on the side of this name, at this place.
fn push_damage(out: &mut Vec<u8>, side: &str, place: u64) -> Result<(), AllocError>
    ensures ok { OnOk result (out.new.items
        ≡ out.old.items ++ (codes "damaged " ++ (side.now ++ (codes " " ++ (decimal place ++ line_end ∷ []))))) }
    ensures err { OnErr result (out.new.items ≡ out.old.items) }
{
    let alloc = *out.allocator();
    let text = format!(in alloc; "damaged {side} {place}\n")?;
    out.extend_from_slice(text.as_bytes())
}
