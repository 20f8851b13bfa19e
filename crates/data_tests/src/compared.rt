//! What a run wrote and how it ended is compared with a transcript: what differs is found, and where.
use std::io::{self, Print};
use std::test::Fail;
use transcripts::{
    RunEnd, Transcript, first_difference, has_end, has_side, has_text, read_transcript,
};

// A transcript of three lines that are given. The first has one reply, the second has two, and the third ends the run.
const TRANSCRIPT: &str = "# a triple is shown\n> add T\ndid r.1\n> show\nhas 1\nr.1 T\n> shown\n\
    = 4 line 3\nside a 01 6d\n";

// What is amiss in what was written, what was written, and the line of the transcript where that shows, if anything is.
type Written = (&'static str, &'static str, Option<u64>);

const TEXTS: &[Written] = &[
    ("nothing", "did r.1\nhas 1\nr.1 T\n", None),
    ("another first line", "did r.2\nhas 1\nr.1 T\n", Some(3)),
    ("another last line", "did r.1\nhas 1\nr.1 U\n", Some(6)),
    ("a digit more", "did r.1\nhas 10\nr.1 T\n", Some(5)),
    ("a digit less", "did r.1\nhas \nr.1 T\n", Some(5)),
    ("a blank behind a line", "did r.1 \nhas 1\nr.1 T\n", Some(3)),
    ("two lines in turn", "did r.1\nr.1 T\nhas 1\n", Some(5)),
    ("no first line", "has 1\nr.1 T\n", Some(3)),
    ("no line between", "did r.1\nr.1 T\n", Some(5)),
    ("no last line", "did r.1\nhas 1\n", Some(6)),
    ("no line at all", "", Some(3)),
    ("a line in front", "\ndid r.1\nhas 1\nr.1 T\n", Some(3)),
    ("a line twice", "did r.1\nhas 1\nhas 1\nr.1 T\n", Some(6)),
    (
        "a line behind the last",
        "did r.1\nhas 1\nr.1 T\nr.1 T\n",
        Some(8),
    ),
    (
        "an empty line behind the last",
        "did r.1\nhas 1\nr.1 T\n\n",
        Some(8),
    ),
    ("no end of the last line", "did r.1\nhas 1\nr.1 T", Some(8)),
];

// Whether a text differs from a transcript at this line, and a comparison of the two fails just where there is one.
fn is_found<R: Print>(
    rt: &R,
    transcript: &Transcript<'_>,
    (what, written, place): Written,
) -> io::Result<bool> {
    let found = match first_difference(transcript, written) {
        Some(difference) => Some(difference.place),
        None => None,
    };
    let is_same = has_text(rt, what, transcript, written.as_bytes())?;
    Ok(found == place && is_same == place.is_none())
}

#[test]
fn a_line_that_differs_is_found(rt: HostRuntime) -> Result<(), Fail> {
    let transcript = read_transcript(TRANSCRIPT)?;
    for written in TEXTS {
        let what = written.0;
        assert!(rt; is_found(&rt, &transcript, *written)?, "{what}");
    }
    Ok(())
}

// A status, the line where a run stopped, if it did, and whether the transcript says so.
const ENDS: &[(u8, Option<u64>, bool)] = &[
    (4, Some(3), true),
    (4, Some(2), false),
    (4, None, false),
    (7, Some(3), false),
    (0, None, false),
];

// A side, the bytes that it has, and whether that is what the transcript says, which tells of side A alone.
const SIDES: &[(&str, &[u8], bool)] = &[
    ("a", b"\x01\x6d", true),
    ("a", b"\x01\x6e", false),
    ("a", b"\x01", false),
    ("a", b"\x01\x6d\x00", false),
    ("b", b"\x07", true),
];

#[test]
fn another_end_or_side_is_found(rt: HostRuntime) -> Result<(), Fail> {
    let transcript = read_transcript(TRANSCRIPT)?;
    for (status, line, wanted) in ENDS {
        let end = RunEnd {
            status: *status,
            line: *line,
        };
        assert!(rt;
            has_end(&rt, "an end", transcript.end, end)? == *wanted,
            "{status}"
        );
    }
    for (side, bytes, wanted) in SIDES {
        let is_so = has_side(&rt, "a side", transcript.behind, side, bytes)?;
        assert!(rt; is_so == *wanted, "{bytes:?}");
    }
    Ok(())
}
