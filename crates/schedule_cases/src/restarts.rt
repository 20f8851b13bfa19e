//! Where a clone stops and opens again between two lines of a transcript. What it holds back is forgotten then, and nothing else.

/// The lines by which the live clone of a number stops and opens, with their replies.
pub fn restart_of(clone: u8) -> &'static str {
    if clone == 0 {
        "> stop 0\nstopped\n> open 0\nopened\n"
    } else {
        "> stop 1\nstopped\n> open 1\nopened\n"
    }
}

/// The places of a transcript where a clone may stop and open, as numbers of lines that were given before.
#[derive(Clone, Copy)]
pub struct Places {
    /// The first: behind the lines that set up the domain and its single-valued properties.
    pub first: u64,
    /// The one after the last: the last is behind all lines.
    pub end: u64,
}

/// These places; `None` where a restart could be seen: the run doesn't reach its end, a range is held back, or a clone stops or crashes.
pub fn places_of(text: &str) -> Option<Places> {
    let mut count = 0u64;
    let mut found = None;
    let mut ends = false;
    for line in text.lines() {
        if line.starts_with("held") || line.starts_with("> stop ") || line.starts_with("> crash ") {
            return None;
        }
        if line.starts_with("> ") {
            count = count.saturating_add(1);
        }
        if line.starts_with("> domain ") || line.starts_with("> single ") {
            found = Some(count);
        }
        ends = line == "= 0";
    }
    if !ends {
        return None;
    }
    Some(Places {
        first: found?,
        end: count.saturating_add(1),
    })
}

/// How many clones are live from the beginning, counted up to two.
pub fn first_clones(text: &str) -> u8 {
    let one = text.lines().any(|line| line.starts_with("> domain ") && line.ends_with(" clones 1"));
    if one { 1 } else { 2 }
}
