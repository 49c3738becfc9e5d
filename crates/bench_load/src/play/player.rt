//! What the lines have asked for so far, and the plays.

use crate::play::alone::{Alone, Cored};
use crate::play::error::PlayError;
use crate::play::moments::{Moments, OneMoment, Readings};
use crate::play::request::{Call, Kind, Request};
use crate::play::settings::Settings;
use crate::play::side::{Called, Counted, Locked, Segmented, Shared, Side};
use crate::play::thread::{Played, Playing, play_calls, play_thread, play_timed};
use std::alloc::Global;
use std::sync::{Arc, Barrier, Wait};
use std::thread::{Builder, Threads};
use std::time::{Clock, Duration};
use std::{fmt, mem};

/// The reply to a line.
#[derive(Clone, Copy, Debug, PartialEq, Eq)]
pub enum Reply {
    /// The outcome of a play: look-ups that found their key, the sum of the found values modulo 2^64, and entries in the end.
    Played { hits: u64, sum: u64, entries: u64 },
    /// How long the last play took, from the moment when the first thread began to that when the last one ended.
    Nanos(u64),
}

impl fmt::Display for Reply {
    fn fmt<W: fmt::Write>(&self, f: &mut fmt::Formatter<W>) -> fmt::Result {
        match self {
            Reply::Played { hits, sum, entries } => {
                write!(f, "hits {hits} sum {sum} entries {entries}")
            }
            Reply::Nanos(nanos) => write!(f, "nanos {nanos}"),
        }
    }
}

/// Returns the reply to a play.
fn reply_to(played: Played, entries: u64) -> Reply {
    Reply::Played {
        hits: played.found.hits,
        sum: played.found.sum,
        entries,
    }
}

/// The requests of the lines so far.
#[derive(Drop)]
pub struct Player {
    alloc: Global,
    /// Number of lines taken.
    lines: u64,
    settings: Settings,
    /// True if each call of a play reads the clock.
    reads_clock: bool,
    /// Calls that fill each new cache.
    filling: Vec<Call>,
    /// The calls of each thread.
    threads: Vec<Vec<Call>>,
    /// How long the last play took.
    nanos: Option<u64>,
}

impl Player {
    pub fn new(alloc: Global) -> Player {
        Player {
            alloc,
            lines: 0,
            settings: Settings::none(),
            reads_clock: false,
            filling: Vec::new(alloc),
            threads: Vec::new(alloc),
            nanos: None,
        }
    }

    /// Takes the next line, and answers it where it has a reply.
    pub fn take<R: Wait + Threads + Clock + Copy + Send + 'static>(
        &mut self,
        rt: R,
        line: &str,
    ) -> Result<Option<Reply>, PlayError> {
        self.lines = self.lines.saturating_add(1);
        let Some(request) = Request::parse(line) else {
            return Err(PlayError::BadLine(self.lines));
        };
        match request {
            Request::Capacity(capacity) => self.settings.capacity = Some(capacity),
            Request::Durations(secs) => self.settings.durations = Some(Duration::from_secs(secs)),
            Request::Clock(reads_clock) => self.reads_clock = reads_clock,
            Request::Thread => self.threads.push(Vec::new(self.alloc))?,
            Request::Clear => self.threads.clear(),
            Request::Call(call) => self.list(call)?,
            Request::Play(kind) => return Ok(Some(self.play(rt, kind)?)),
            Request::Nanos => return Ok(Some(self.nanos()?)),
        }
        Ok(None)
    }

    /// Puts a call at the end of the list of the last thread, or where there is none, of what fills a new cache.
    fn list(&mut self, call: Call) -> Result<(), PlayError> {
        match self.threads.last_mut() {
            Some(calls) => calls.push(call)?,
            None => self.filling.push(call)?,
        }
        Ok(())
    }

    /// How long the last play took.
    fn nanos(&self) -> Result<Reply, PlayError> {
        match self.nanos {
            Some(nanos) => Ok(Reply::Nanos(nanos)),
            None => Err(PlayError::BadLine(self.lines)),
        }
    }

    /// Makes a new cache of this kind, fills it, and plays all threads on it.
    fn play<R: Wait + Threads + Clock + Copy + Send + 'static>(
        &mut self,
        rt: R,
        kind: Kind,
    ) -> Result<Reply, PlayError> {
        if self.threads.is_empty() {
            return Err(PlayError::BadLine(self.lines));
        }
        let (alloc, settings) = (self.alloc, self.settings);
        match kind {
            Kind::Sync => self.play_on(rt, &mut Shared::new(alloc, settings)?),
            Kind::Counted => self.play_on(rt, &mut Counted::new(alloc, settings)?),
            Kind::Unsync => self.play_on(rt, &mut Locked::new(alloc, settings)?),
            Kind::Segments => self.play_on(rt, &mut Segmented::new(alloc, settings)?),
            Kind::Alone => self.play_alone_on(&rt, &mut Alone::new(alloc, settings)?),
            Kind::Core => self.play_alone_on(&rt, &mut Cored::new(alloc, settings)?),
        }
    }

    /// Fills the cache, and plays all threads on it, with the moments that are asked for.
    fn play_on<S: Side + Send + 'static, R: Wait + Threads + Clock + Copy + Send + 'static>(
        &mut self,
        rt: R,
        side: &mut S,
    ) -> Result<Reply, PlayError> {
        if self.reads_clock {
            return self.play_threads(rt, side, Readings::start(&rt)?);
        }
        self.play_threads(rt, side, OneMoment)
    }

    /// Fills the cache, and plays all threads on it.
    fn play_threads<
        S: Side + Send + 'static,
        M: Moments,
        R: Wait + Threads + Clock + Copy + Send + 'static,
    >(&mut self, rt: R, side: &mut S, moments: M) -> Result<Reply, PlayError> {
        play_calls(&rt, side, moments, &self.filling)?;
        let mut whole: Option<Played> = None;
        for thread in self.start(rt, side, moments)? {
            let (calls, played) = thread.join(&rt)?;
            self.threads.push(calls)?;
            whole = Some(match whole {
                Some(so_far) => so_far.with(played),
                None => played,
            });
        }
        let Some(whole) = whole else {
            return Err(PlayError::BadLine(self.lines));
        };
        self.nanos = Some(whole.nanos());
        Ok(reply_to(whole, side.entries(&rt, moments.next(&rt)?)))
    }

    /// Fills a cache for one caller, and plays the one thread on it, with the moments that are asked for.
    fn play_alone_on<C: Called, R: Wait + Clock>(
        &mut self,
        rt: &R,
        cache: &mut C,
    ) -> Result<Reply, PlayError> {
        if self.reads_clock {
            return self.play_alone(rt, cache, Readings::start(rt)?);
        }
        self.play_alone(rt, cache, OneMoment)
    }

    /// Fills the cache, and makes the calls of the one thread in this one.
    fn play_alone<C: Called, M: Moments, R: Wait + Clock>(
        &mut self,
        rt: &R,
        cache: &mut C,
        moments: M,
    ) -> Result<Reply, PlayError> {
        let [calls] = self.threads.as_slice() else {
            return Err(PlayError::BadLine(self.lines));
        };
        play_calls(rt, cache, moments, &self.filling)?;
        let played = play_timed(rt, cache, moments, calls)?;
        self.nanos = Some(played.nanos());
        Ok(reply_to(played, cache.entries(rt, moments.next(rt)?)))
    }

    /// Starts all threads. Each takes its list of calls with it, and gives it back in the end.
    fn start<
        S: Side + Send + 'static,
        M: Moments,
        R: Wait + Threads + Clock + Copy + Send + 'static,
    >(&mut self, rt: R, side: &mut S, moments: M) -> Result<Vec<Playing>, PlayError> {
        let together = Arc::new(self.alloc, Barrier::new(self.threads.len()))?;
        let lists = mem::replace(&mut self.threads, Vec::new(self.alloc));
        let mut threads = Vec::new(self.alloc);
        for calls in lists {
            let (mut shared, together) = (side.another()?, together.clone()?);
            let thread = Builder::new().spawn(
                &rt,
                move || play_thread(&rt, &mut shared, moments, &together, calls),
            )?;
            threads.push(thread)?;
        }
        Ok(threads)
    }
}
