//! Lines of input as requests.

/// One call of a thread. An insert stores the key itself as its value.
#[derive(Clone, Copy, Debug, PartialEq, Eq)]
pub enum Call {
    /// `get KEY`
    Get(u64),
    /// `insert KEY`
    Insert(u64),
    /// `read KEY`: a look-up, and an insert if it finds nothing.
    Read(u64),
    /// `count`: how many entries were counted last. Nothing is made of it.
    Count,
    /// `sync`: a whole maintenance, where the cache has one. Nothing is made of it.
    Sync,
}

/// Which cache is played on.
#[derive(Clone, Copy, Debug, PartialEq, Eq)]
pub enum Kind {
    /// `sync`: the cache that is made for it.
    Sync,
    /// `counted`: the same, with its counts published.
    Counted,
    /// `unsync`: the cache for one thread, with one lock round it.
    Unsync,
    /// `segments`: the cache of segments.
    Segments,
    /// `alone`: the cache for one thread, without a lock, for the calls of one thread.
    Alone,
    /// `core`: the core of the cache for threads, by whole calls of one thread.
    Core,
}

/// One line of input.
#[derive(Clone, Copy, Debug, PartialEq, Eq)]
pub enum Request {
    /// `capacity NUMBER`: how many entries the caches have at most that are made from here on. Before the first such line they have no limit.
    Capacity(u64),
    /// `durations SECONDS`: the time to live and the time to idle of the caches that are made from here on. Before the first such line they have none.
    Durations(u64),
    /// `clock on`: each call of the plays from here on reads the clock. `clock off`: all calls of a play have one moment, as at first.
    Clock(bool),
    /// `thread`: the calls that follow are those of one more thread. The calls that come before the first thread's fill each new cache.
    Thread,
    /// `clear`: there are no threads. What fills a new cache stays.
    Clear,
    /// A call, of the thread that came last.
    Call(Call),
    /// `play` and the name of a kind: a new cache is made and filled, and then all threads make their calls on it.
    Play(Kind),
    /// `nanos`: how long the last play took.
    Nanos,
}

impl Request {
    /// The request that a line spells, if it spells one.
    pub fn parse(line: &str) -> Option<Request> {
        match line.split_once(' ') {
            Some((name, word)) => with_word(name, word),
            None => alone(line),
        }
    }
}

/// The request of one word.
fn alone(name: &str) -> Option<Request> {
    match name {
        "thread" => Some(Request::Thread),
        "clear" => Some(Request::Clear),
        "nanos" => Some(Request::Nanos),
        "count" => Some(Request::Call(Call::Count)),
        "sync" => Some(Request::Call(Call::Sync)),
        _ => None,
    }
}

/// The request of two words.
fn with_word(name: &str, word: &str) -> Option<Request> {
    match name {
        "get" => Some(Request::Call(Call::Get(number_of(word)?))),
        "insert" => Some(Request::Call(Call::Insert(number_of(word)?))),
        "read" => Some(Request::Call(Call::Read(number_of(word)?))),
        "capacity" => Some(Request::Capacity(number_of(word)?)),
        "durations" => Some(Request::Durations(number_of(word)?)),
        "clock" => Some(Request::Clock(is_on(word)?)),
        "play" => Some(Request::Play(kind_of(word)?)),
        _ => None,
    }
}

fn number_of(word: &str) -> Option<u64> {
    word.parse::<u64>().ok()
}

fn is_on(word: &str) -> Option<bool> {
    match word {
        "on" => Some(true),
        "off" => Some(false),
        _ => None,
    }
}

fn kind_of(word: &str) -> Option<Kind> {
    match word {
        "sync" => Some(Kind::Sync),
        "counted" => Some(Kind::Counted),
        "unsync" => Some(Kind::Unsync),
        "segments" => Some(Kind::Segments),
        "alone" => Some(Kind::Alone),
        "core" => Some(Kind::Core),
        _ => None,
    }
}
