//! How a run ends, as a line says it.
use std::fmt;

/// How a run ends.
#[derive(Clone, Copy, PartialEq, Eq)]
pub struct RunEnd {
    /// The status.
    pub status: u8,
    /// The number of the line where it stopped, where it stopped at one.
    pub line: Option<u64>,
}

impl fmt::Display for RunEnd {
    fn fmt<W: fmt::Write>(&self, f: &mut fmt::Formatter<W>) -> fmt::Result {
        let status = self.status;
        match self.line {
            Some(line) => write!(f, "status {status} at line {line}"),
            None => write!(f, "status {status}"),
        }
    }
}

/// The end that `STATUS` or `STATUS line K` stands for.
pub fn read_end(told: &str) -> Option<RunEnd> {
    match told.split_once(" line ") {
        None => Some(RunEnd {
            status: told.parse().ok()?,
            line: None,
        }),
        Some((status, line)) => Some(RunEnd {
            status: status.parse().ok()?,
            line: Some(line.parse().ok()?),
        }),
    }
}
