//! A script as values: its header, and the lines behind it.
ghost use Rattle.std.specs.Prelude.{◌≡◌};
ghost use Rattle.std.specs.Duration.{as_nanos};
ghost use Rattle.moka_grammar.specs.Lines.{allows};
ghost use Rattle.moka_grammar.specs.Options.{can_have, span_nanos};

use crate::text::Text;
use std::alloc::{Allocator, Global};
use std::time::Duration;

/// The mode of a whole script, by its first line.
#[derive(Clone, Copy, Debug, PartialEq, Eq)]
pub enum Header {
    /// Calls to a cache.
    Cache(CacheHeader),
    /// Steps of the core of the cache that threads share.
    Core(CacheOptions),
    /// Calls to a frequency sketch that begins with a table for `cap` entries.
    Sketch { cap: u32 },
}

/// The first line of a script of calls to a cache: which cache it is, and its settings.
#[derive(Clone, Copy, Debug, PartialEq, Eq)]
pub struct CacheHeader {
    pub mode: Mode,
    pub options: CacheOptions,
}

/// Which cache a script's calls are made on.
#[derive(Clone, Copy, Debug, PartialEq, Eq)]
pub enum Mode {
    /// A cache that keeps a record of its calls.
    Recorded,
    /// The cache that threads share, with its locks.
    Sync,
    /// The cache for one thread.
    Unsync,
}

impl Mode {
    /// Returns `true` if a script of this mode can have the request.
    pub fn allows<T>(self, request: &Request<T>) -> bool
        ensures { result ≡ allows self request.now }
    {
        match (self, request) {
            (Mode::Recorded | Mode::Sync, Request::Insert { live: Some(_), .. }) => false,
            (
                Mode::Recorded | Mode::Sync,
                Request::Modify { .. } | Request::RemoveExpired | Request::InvalidateIf { .. },
            ) => false,
            (Mode::Recorded, Request::Iter | Request::Policy) => false,
            (Mode::Unsync, Request::Sync) => false,
            _ => true,
        }
    }

    /// Returns `true` if a script of this mode can begin with the settings. Only a record's cache and a core have their first tickets set, and only the cache
    /// for one thread adapts.
    pub fn can_have(self, options: CacheOptions) -> bool
        ensures { result ≡ can_have self options }
    {
        match self {
            Mode::Recorded => !options.adaptive,
            Mode::Sync => options.tickets.is_none() && !options.adaptive,
            Mode::Unsync => options.tickets.is_none(),
        }
    }
}

/// A length of time, in the unit that it is given in.
#[derive(Clone, Copy, Debug, PartialEq, Eq)]
pub enum Span {
    Seconds(u64),
    Nanos(u64),
}

impl Span {
    /// Returns the same length of time as a `Duration`.
    pub fn to_duration(self) -> Duration
        ensures { as_nanos result ≡ span_nanos self }
    {
        match self {
            Span::Seconds(count) => Duration::from_secs(count),
            Span::Nanos(count) => Duration::from_nanos(count),
        }
    }
}

/// The settings of a cache, as the first line of its script gives them.
#[derive(Clone, Copy, Debug, PartialEq, Eq)]
pub struct CacheOptions {
    /// The limit.
    pub max: Option<u64>,
    /// The time to live.
    pub live: Option<Span>,
    /// The time to idle.
    pub idle: Option<Span>,
    /// True if each insert has a weight.
    pub weighed: bool,
    /// True if the window adapts to the calls.
    pub adaptive: bool,
    /// The number of each shard's first ticket.
    pub tickets: Option<u64>,
}

/// A request to a cache. `T` is how texts are held, so that a contract sees a request without an allocator.
#[derive(Drop)]
pub enum Request<T = Text> {
    /// Stores the text. The weight is there exactly if the script is weighed, and only the cache for one thread takes a time to live of the entry's own.
    Insert {
        key: u64,
        text: T,
        weight: Option<u32>,
        live: Option<Span>,
    },
    /// Changes the text of the key's entry, if there is one. The weight is there as in an insert.
    Modify {
        key: u64,
        text: T,
        weight: Option<u32>,
    },
    Get {
        key: u64,
    },
    ContainsKey {
        key: u64,
    },
    /// Removes the entry of the key.
    Invalidate {
        key: u64,
    },
    /// Removes it and asks for its text.
    Remove {
        key: u64,
    },
    /// Removes all entries.
    InvalidateAll,
    /// Removes all expired entries.
    RemoveExpired,
    /// Removes the entries whose text is this one.
    InvalidateIf {
        text: T,
    },
    /// Applies what the shared cache has put off.
    Sync,
    /// The unexpired entries.
    Iter,
    /// The number of entries.
    EntryCount,
    /// Their weight.
    WeightedSize,
    /// The settings that the cache was built with.
    Policy,
}

/// A request and its moment, in nanoseconds.
#[derive(Drop)]
pub struct Line<T = Text> {
    pub now: u64,
    pub request: Request<T>,
}

/// A request to a core: mostly one atomic step, of a caller or of the maintenance. `T` is how texts are held, as in `Request`.
#[derive(Drop)]
pub enum CoreRequest<T = Text> {
    /// Puts the text into the map. The weight is there exactly if the script is weighed.
    Insert {
        caller: u32,
        key: u64,
        text: T,
        weight: Option<u32>,
    },
    Get {
        caller: u32,
        key: u64,
    },
    ContainsKey {
        key: u64,
    },
    /// Takes the entry of the key out of the map.
    Invalidate {
        caller: u32,
        key: u64,
    },
    /// Takes it out and asks for its text.
    Remove {
        caller: u32,
        key: u64,
    },
    /// Hides all entries.
    InvalidateAll,
    /// Puts what the caller has pending into its log.
    Push {
        caller: u32,
    },
    /// Drops the read that the caller has pending.
    Forget {
        caller: u32,
    },
    /// Begins a maintenance.
    Begin,
    /// Takes its next turn.
    Turn,
    /// Takes turns until it is done.
    Rest,
    /// Begins a maintenance, and takes turns until it is done.
    Sync,
    /// The unexpired entries.
    Iter,
    /// The number of charged entries.
    EntryCount,
    /// The charged weight.
    WeightedSize,
}

/// A request to a core with its moment, in nanoseconds.
#[derive(Drop)]
pub struct CoreLine<T = Text> {
    pub now: u64,
    pub request: CoreRequest<T>,
}

/// A request to the sketch.
#[derive(Clone, Copy, Debug, PartialEq, Eq)]
pub enum SketchLine {
    /// Counts the hash `times` times.
    Inc { hash: u64, times: u16 },
    /// Estimates how often the hash was counted recently.
    Freq { hash: u64 },
    /// The place of the hash's counter at a depth.
    Index { hash: u64, depth: u8 },
    /// How long the table is.
    Len,
    /// Makes sure of a table for a cache of this capacity.
    Ensure { cap: u32 },
}

/// A whole script, its lines in their order.
#[derive(Drop)]
pub enum Script<A: Allocator + Clone + Drop = Global> {
    Cache {
        header: CacheHeader,
        lines: Vec<Line<Text<A>>, A>,
    },
    Core {
        options: CacheOptions,
        lines: Vec<CoreLine<Text<A>>, A>,
    },
    Sketch {
        cap: u32,
        lines: Vec<SketchLine, A>,
    },
}
