//! Where a live clone stops and opens again between two lines of a transcript. It forgets nothing by that.
use transcripts::is_stop;

/// The lines by which a live clone stops and opens, with their replies.
pub const RESTART: &str = "> stop\nstopped\n> open\nopened\n";

/// Whether a restart stays unseen behind so many given lines: the clone is live there, and no call fails.
pub fn may_restart(text: &str, given: u64) -> bool {
    let mut count = 0u64;
    let mut live = false;
    for line in text.lines() {
        if line.starts_with("fails ") {
            return false;
        }
        if is_stop(line) {
            if count == given {
                return live;
            }
            count = count.saturating_add(1);
        }
        live = is_live_behind(live, line);
    }
    false
}

/// Whether the clone is live behind a line of a transcript.
fn is_live_behind(live: bool, line: &str) -> bool {
    match line {
        "opened" | "created" => true,
        "stopped" => false,
        _ => live,
    }
}
