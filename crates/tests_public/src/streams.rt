// A stream that refuses its first call, its second, and so on, until nothing is refused.
use mini_moka::script::{End, FromRead, FromWrite, ScriptError, run};
use std::alloc::Global;
use std::io;
use std::io::{Read, Write};

const SCRIPT: &str = "recorded\n0 insert 7 alice\n0 get 7\n0 get 8\n";

const REPLIES: &str = "ready\nok\nsome alice\nnone\n";

/// More calls than any run here makes.
const MANY: usize = 100;

/// Gives three bytes a call at most, and refuses after `calls` calls.
#[derive(Drop)]
struct Dripping<'a> {
    left: &'a [u8],
    calls: usize,
}

impl Read for Dripping<'_> {
    fn read(&mut self, buffer: &mut [u8]) -> io::Result<usize> {
        if self.calls == 0 {
            return Err(io::Error::from(io::ErrorKind::Other));
        }
        self.calls -= 1;
        let count = self.left.len().min(buffer.len()).min(3);
        let (front, rest) = self.left.split_at(count);
        for (to, from) in buffer.iter_mut().zip(front) {
            *to = *from;
        }
        self.left = rest;
        Ok(count)
    }
}

/// Takes two bytes a call at most, and refuses after `calls` calls.
#[derive(Drop)]
struct Narrow {
    taken: Vec<u8>,
    calls: usize,
}

impl Write for Narrow {
    fn write(&mut self, bytes: &[u8]) -> io::Result<usize> {
        if self.calls == 0 {
            return Err(io::Error::from(io::ErrorKind::Other));
        }
        self.calls -= 1;
        let count = bytes.len().min(2);
        self.taken.extend_from_slice(&bytes[..count])?;
        Ok(count)
    }

    fn flush(&mut self) -> io::Result<()> {
        Ok(())
    }
}

impl Narrow {
    fn new(alloc: Global, calls: usize) -> Narrow {
        Narrow {
            taken: Vec::new(alloc),
            calls,
        }
    }
}

/// How a run ends whose source refuses after `calls` calls, and what it writes.
fn run_of_reads(alloc: Global, calls: usize) -> (Result<End, ScriptError>, Vec<u8>) {
    let left = SCRIPT.as_bytes();
    let mut source = FromRead::new(Dripping { left, calls });
    let mut sink = FromWrite::new(Vec::new(alloc));
    let end = run(alloc, &mut source, &mut sink);
    (end, sink.into_inner())
}

/// How a run ends whose sink refuses after `calls` calls, and what was written till then.
fn run_of_writes(alloc: Global, calls: usize) -> (Result<End, ScriptError>, Vec<u8>) {
    let mut source = FromRead::new(SCRIPT.as_bytes());
    let mut sink = FromWrite::new(Narrow::new(alloc, calls));
    let end = run(alloc, &mut source, &mut sink);
    (end, sink.into_inner().taken)
}

/// Returns if the source refuses after `calls` calls, and nothing is written then. Otherwise all replies are. Anything else is nothing.
fn is_read_refused(alloc: Global, calls: usize) -> Option<bool> {
    let (end, text) = run_of_reads(alloc, calls);
    match end {
        Err(ScriptError::Read) if text.is_empty() => Some(true),
        Ok(End::Done) if text.as_slice() == REPLIES.as_bytes() => Some(false),
        _ => None,
    }
}

/// Returns if the sink refuses after `calls` calls, and has the first replies then, two bytes a call. Otherwise it has all. Anything else is nothing.
fn is_write_refused(alloc: Global, calls: usize) -> Option<bool> {
    let (end, text) = run_of_writes(alloc, calls);
    let replies = REPLIES.as_bytes();
    match end {
        Err(ScriptError::Write)
            if text.len() == calls.wrapping_mul(2) && replies.starts_with(&text) => Some(true),
        Ok(End::Done) if text.as_slice() == replies => Some(false),
        _ => None,
    }
}

// 42 bytes by threes, and the read that finds the end. 25 bytes by twos.
#[test]
fn a_beginning_is_written_where_the_nth_call_fails(rt: HostRuntime) {
    for calls in 0..MANY {
        let is_right = is_read_refused(rt.alloc(), calls) == Some(calls < 15);
        assert!(rt; is_right, "after {calls} reads");
    }
    for calls in 0..MANY {
        let is_right = is_write_refused(rt.alloc(), calls) == Some(calls < 13);
        assert!(rt; is_right, "after {calls} writes");
    }
}
