//! What programs share that run lines of data and compare what comes with what the data says: the files of a folder, cases, transcripts,
//! bytes as hexadecimal digits, counts of runs, and how a difference is told.
#![tactic(auto)]

mod cases;
mod comparing;
mod counts;
mod ends;
mod files;
mod hexadecimal;
mod marks;
mod reading;
mod restarts;
mod sides;
mod telling;

pub use cases::{Case, Tries, try_cases};
pub use comparing::{Difference, first_difference};
pub use counts::Count;
pub use ends::RunEnd;
pub use files::names_of_files;
pub use hexadecimal::{first_bytes, is_hexadecimal, put_hexadecimal};
pub use marks::{parted, uncommented};
pub use reading::{Transcript, TranscriptFault, put_given, read_transcript};
pub use restarts::{count_given, is_stop, with_lines};
pub use sides::{has_side, is_side, side_bytes};
pub use telling::{has_end, has_text};
