// The texts of errors that `Display` shows by a derive, and of what is wrong with bad lines. No clause says anything of them.
use mini_moka::Error;
use mini_moka::common::BuildError;
use mini_moka::script::{Fault, ParseError, ReadError, reason};
use std::test::Fail;

#[test]
fn errors_show_their_causes(rt: HostRuntime) -> Result<(), Fail> {
    let build = Error::from(BuildError::TimeToLiveTooLong);
    let (bad, parsed) = (ParseError::BadLine(7), ParseError::OutOfMemory);
    let (fault, refused, read) = (Fault, ReadError::Read, ReadError::OutOfMemory);
    let text = format!(in rt.alloc();
        "{build}, {}; {bad}, {parsed}; {fault}, {refused}, {read}",
        Error::OutOfMemory
    )?;
    let wanted =
        "time_to_live is longer than 1000 years, out of memory; bad line 7, out of memory; the stream refused a call, the source refused to be read, out of memory";
    assert!(rt; text.as_str() == wanted);
    Ok(())
}

const MODE: &str = "the first word is no mode: unsync, sync, recorded, core or sketch";

const SETTINGS: &str =
    "after the mode come settings, in this order and at most once: max N, live DURATION, idle DURATION, weighed, \
    of unsync adaptive, and of recorded and core tickets N; after sketch comes a number";

const MISSING: &str = "there is no line: a script begins with a mode, as `unsync max 3`";

const NO_LINE_FEED: &str = "the line doesn't end with a line feed";

const CARRIAGE_RETURN: &str = "the line has a carriage return: lines end with a line feed alone";

const SPACES: &str = "words are separated by one space each, with none at either end";

const MOMENT: &str = "the line doesn't begin with a moment, a number of nanoseconds";

const REQUEST: &str = "the mode has no such call";

const WORDS: &str = "the call takes other words, or a number or a value is malformed";

/// Scripts, the numbers of their bad lines, and what is wrong with these.
const BAD: [(&str, u64, &str); 29] = [
    ("", 1, MISSING),
    ("unsync\n", 3, MISSING),
    ("unsync", 1, NO_LINE_FEED),
    ("unsync\n0 clear", 2, NO_LINE_FEED),
    ("unsync\r\n", 1, CARRIAGE_RETURN),
    ("unsync\n0 clear\r\n", 2, CARRIAGE_RETURN),
    ("\n", 1, SPACES),
    ("unsync  max 3\n", 1, SPACES),
    ("unsync\n0 get 7 \n", 2, SPACES),
    ("cache max 3\n", 1, MODE),
    ("unsync max\n", 1, SETTINGS),
    ("sketch\n", 1, SETTINGS),
    ("core idle 3\n", 1, SETTINGS),
    ("unsync\nget 7\n", 2, MOMENT),
    ("core\nbegin\n", 2, MOMENT),
    ("unsync\n0 sync\n", 2, REQUEST),
    ("sync\n0 drop-if 1\n", 2, REQUEST),
    ("sync\n0 modify 7 a\n", 2, REQUEST),
    ("recorded\n0 expire\n", 2, REQUEST),
    ("recorded\n0 iter 1\n", 2, REQUEST),
    ("sketch 8\nget 1\n", 2, REQUEST),
    ("core\n0 policy 1\n", 2, REQUEST),
    ("unsync\n0 drop-if\n", 2, WORDS),
    ("unsync\n0 modify 7\n", 2, WORDS),
    ("unsync\n0 insert 7 a live 5\n", 2, WORDS),
    ("sync live 5s\n0 insert 7 a live 5s\n", 2, WORDS),
    ("sync\n0 iter 1\n", 2, WORDS),
    ("sketch 8\ninc -1\n", 2, WORDS),
    ("core\n0 turn 1 2 3\n", 2, WORDS),
];

#[test]
fn bad_lines_have_their_reasons(rt: HostRuntime) -> Result<(), Fail> {
    for (script, number, text) in BAD {
        assert!(rt; reason(script.as_bytes(), number).text() == text);
    }
    Ok(())
}
