//! What the words of the program say.

/// What a run does with the side that it read. All of it stands on a mount of that side.
#[derive(Clone, Copy, Debug, PartialEq, Eq)]
pub struct Parts {
    /// Makes a journal of the head, on banks that tell nothing.
    pub creates: bool,
    /// Makes a journal of the head, on banks in memory that keep what they were given.
    pub models: bool,
    /// How many forks it appends.
    pub forks: u32,
    /// How many entries it appends, each of one insert.
    pub entries: u32,
    /// Mounts what it wrote.
    pub again: bool,
}

/// The parts that these words name, or none where one is unknown.
pub fn parts_of(words: &[String]) -> Option<Parts> {
    let mut parts = Parts {
        creates: false,
        models: false,
        forks: 0,
        entries: 0,
        again: false,
    };
    for word in words {
        parts = with_word(parts, word.as_str())?;
    }
    Some(parts)
}

/// The parts with what one word more says.
fn with_word(parts: Parts, word: &str) -> Option<Parts> {
    match word {
        "mount" => Some(parts),
        "create" => Some(Parts {
            creates: true,
            ..parts
        }),
        "model" => Some(Parts {
            models: true,
            ..parts
        }),
        "again" => Some(Parts {
            again: true,
            ..parts
        }),
        _ => with_count(parts, word),
    }
}

/// The parts with what a word says that has a count.
fn with_count(parts: Parts, word: &str) -> Option<Parts> {
    if let Some(count) = word.strip_prefix("forks=") {
        let forks = count.parse().ok()?;
        return Some(Parts { forks, ..parts });
    }
    let count = word.strip_prefix("entries=")?;
    let entries = count.parse().ok()?;
    Some(Parts { entries, ..parts })
}
