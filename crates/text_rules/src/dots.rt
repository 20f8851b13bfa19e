//! Paths without dot segments (RFC 3986, section 5.2.4).
ghost use Rattle.std.specs.Prelude.{◌≡◌, ◌∷◌, [], ◌<◌, length, MatchOption, IfSome, IfOk, OnOk};
ghost use Rattle.std.specs.String.{string_bytes};
ghost use Rattle.text_rules.specs.Dots.{segments, is_dots, kept_text, remove_dot_segments};
ghost use Rattle.text_rules.specs.Output.{without_last, add_segment, add_last, add_segments};

use std::alloc::{AllocError, Global};

/// Whether a segment is `.` or `..`.
fn is_dots(segment: &str) -> bool
    ensures { result ≡ is_dots segment.now }
{
    segment == "." || segment == ".."
}

/// The first segment, and what is behind its slash; none where the path is one segment.
fn cut_segment(path: &str) -> Option<(&str, &str)>
    ensures first { MatchOption result (segments path.now ≡ path.now ∷ [])
        (λ parts. segments path.now ≡ parts.0.now ∷ segments parts.1.now) }
    ensures shorter { IfSome result (λ parts. length parts.1.now < length path.now) }
{
    path.split_once('/')
}

/// A path without the `.` and `..` that it begins with.
#[tactic(auto, unfolding(crate::specs::Dots::remove_dot_segments))]
fn without_front(path: &str) -> &str
    ensures { kept_text (segments result.now) ≡ remove_dot_segments path.now }
{
    let mut rest = path;
    while let Some((segment, more)) = cut_segment(rest) {
        if !is_dots(segment) {
            return rest;
        }
        rest = more;
    }
    if is_dots(rest) { "" } else { rest }
}

/// Takes the last segment and the slash in front of it from a path's end.
fn drop_last(output: &mut String)
    ensures { string_bytes output.new ≡ without_last (string_bytes output.old) }
{
    let end = output.as_str().rfind('/').unwrap_or(0);
    output.truncate(end);
}

/// Adds a slash and a segment, or does what a dot segment says.
fn add_segment(output: &mut String, segment: &str) -> Result<(), AllocError>
    ensures { OnOk result (string_bytes output.new ≡ add_segment (string_bytes output.old) segment.now) }
{
    if segment == "." {
        return Ok(());
    }
    if segment == ".." {
        drop_last(output);
        return Ok(());
    }
    output.push('/')?;
    output.push_str(segment)
}

/// Adds a last segment; behind a dot segment a slash stays.
fn add_last(output: &mut String, segment: &str) -> Result<(), AllocError>
    ensures { OnOk result (string_bytes output.new ≡ add_last (string_bytes output.old) segment.now) }
{
    add_segment(output, segment)?;
    if is_dots(segment) {
        output.push('/')?;
    }
    Ok(())
}

/// Adds the segments of a path, each behind a slash.
fn add_segments(output: &mut String, path: &str) -> Result<(), AllocError>
    ensures { OnOk result (string_bytes output.new ≡ add_segments (string_bytes output.old) (segments path.now)) }
{
    let mut rest = path;
    while let Some((segment, more)) = cut_segment(rest) {
        add_segment(output, segment)?;
        rest = more;
    }
    add_last(output, rest)
}

/// A path without its dot segments.
pub(crate) fn remove_dot_segments(alloc: Global, path: &str) -> Result<String, AllocError>
    ensures { IfOk result (λ text. string_bytes text ≡ remove_dot_segments path.now) }
{
    let rest = without_front(path);
    let Some((first, others)) = cut_segment(rest) else {
        return String::from_str(alloc, rest);
    };
    let mut output = String::from_str(alloc, first)?;
    add_segments(&mut output, others)?;
    Ok(output)
}
