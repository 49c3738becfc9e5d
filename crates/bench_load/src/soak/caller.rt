// One of the threads of a soak.
use crate::soak::call::{Call, Kind};
use crate::soak::draws::Draws;
use crate::soak::made::add_one;
use crate::soak::moments::{Clock, Moments};
use crate::soak::seen::Seen;
use crate::soak::soaked::{Soaked, is_as_set};
use crate::soak::stamp::Stamp;
use crate::soak::tally::Tally;
use moka_common::time::Instant;
use std::alloc::{AllocError, Global};
use std::sync::Wait;

/// A caller with its clone of the cache.
#[derive(Drop)]
pub(crate) struct Caller<C: Soaked> {
    alloc: Global,
    cache: C,
    draws: Draws,
    moments: Moments,
    seen: Seen,
    tally: Tally,
}

impl<C: Soaked> Caller<C> {
    /// The caller with this number, which has made no call.
    pub(crate) fn new(
        alloc: Global,
        cache: C,
        clock: Clock,
        seed: u64,
        number: u64,
    ) -> Result<Self, AllocError> {
        Ok(Caller {
            alloc,
            cache,
            draws: Draws::new(seed, number),
            moments: Moments::new(clock),
            seen: Seen::new(alloc)?,
            tally: Tally::NOTHING,
        })
    }

    /// Makes `calls` calls, and returns what came of them.
    pub(crate) fn run<R: Wait>(&mut self, rt: &R, calls: u64) -> Tally {
        for _ in 0..calls {
            let now = self.moments.next(&mut self.draws);
            let call = self.draws.call(now);
            self.make(rt, call);
        }
        self.tally
    }

    /// Makes a call.
    fn make<R: Wait>(&mut self, rt: &R, call: Call) {
        self.tally.made.add(call.kind);
        match call.kind {
            Kind::Get => {
                let found = self.cache.get(rt, call.key, call.now);
                self.tally.note_found(call.key, found);
            }
            Kind::GetIfPresent => {
                let found = self.cache.read(rt, call.key, call.now);
                self.tally.note_found(call.key, found);
            }
            Kind::ContainsKey => {
                let _ = self.cache.contains_key(rt, call.key, call.now);
            }
            Kind::Insert => {
                if self.cache.insert(rt, call.stamp(), call.now).is_err() {
                    add_one(&mut self.tally.refusals);
                }
            }
            Kind::Invalidate => self.cache.invalidate(rt, call.key, call.now),
            Kind::Remove => {
                let removed = self.cache.remove(rt, call.key, call.now);
                self.tally.note_found(call.key, removed);
            }
            Kind::InvalidateAll => self.cache.invalidate_all(rt, call.now),
            Kind::Iter => self.look_over(rt, call.now),
            Kind::Sync => self.cache.settle(rt, call.now),
            Kind::Counts => self.count(rt),
            Kind::Policy => self.ask_policy(),
            Kind::Clone => self.renew(),
        }
    }

    /// Looks at each pair of a snapshot.
    fn look_over<R: Wait>(&mut self, rt: &R, now: Instant) {
        let Ok(pairs) = self.cache.pairs(rt, self.alloc, now) else {
            add_one(&mut self.tally.refusals);
            return;
        };
        self.seen.begin();
        for (key, stamp) in pairs {
            let is_first = self.seen.is_first(key);
            self.tally.note_pair(key, stamp, is_first);
        }
    }

    /// Asks what the entries weigh.
    fn count<R: Wait>(&mut self, rt: &R) {
        let told = self.cache.counted(rt);
        self.tally.heaviest = self.tally.heaviest.max(told.weight);
    }

    /// Asks for the policy.
    fn ask_policy(&mut self) {
        if !is_as_set(&self.cache.policy()) {
            add_one(&mut self.tally.wrong_policies);
        }
    }

    /// Goes on with another clone of the cache.
    fn renew(&mut self) {
        match self.cache.another() {
            Ok(cache) => self.cache = cache,
            Err(_) => add_one(&mut self.tally.refusals),
        }
    }
}
