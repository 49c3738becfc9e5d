//! A cache kept in a struct, with a weigher of its own and by a running clock..
ghost use Rattle.std.specs.Prelude.{◌≡◌, ◌^◌, ◌-◌, min, ⊤};
ghost use Rattle.std.specs.String.{string_len};

use mini_moka::Error;
use mini_moka::common::time::Instant;
use mini_moka::common::{FixedState, Weigh};
use mini_moka::unsync::Cache;
use std::alloc::Global;
use std::time::{Clock, Duration};

/// Weighs a text by its bytes.
#[derive(Drop)]
pub struct ByLength;

impl Weigh<u64, String> for ByLength {
    ghost ready = { λ _. ⊤ };

    ghost weighs = { λ old _ text weight new. (weight ≡ min (string_len text) (2 ^ 32 - 1)) × (new ≡ old) };

    fn weigh(&mut self, _key: &u64, text: &String) -> u32 {
        u32::try_from(text.len()).unwrap_or(u32::MAX)
    }
}

/// Texts by number: a megabyte at most, each for ten minutes.
#[derive(Drop)]
pub struct Pages {
    texts: Cache<u64, String, FixedState, ByLength>,
    started: std::time::Instant,
}

impl Pages {
    pub fn open(alloc: Global, clock: &impl Clock) -> Result<Pages, Error> {
        let texts = Cache::builder(alloc)
            .max_capacity(1_000_000)
            .time_to_live(Duration::from_secs(600))
            .weigher(ByLength)
            .build()?;
        let started = std::time::Instant::now(clock)?;
        Ok(Pages { texts, started })
    }

    pub fn put(&mut self, clock: &impl Clock, page: u64, text: String) -> Result<(), Error> {
        let now = self.now(clock)?;
        self.texts.insert(page, text, now)?;
        Ok(())
    }

    pub fn text(&mut self, clock: &impl Clock, page: u64) -> Result<Option<&String>, Error> {
        let now = self.now(clock)?;
        Ok(self.texts.get(&page, now))
    }

    fn now(&self, clock: &impl Clock) -> Result<Instant, Error> {
        let since = self.started.elapsed(clock)?;
        Ok(Instant::from_secs(0).after(since))
    }
}
