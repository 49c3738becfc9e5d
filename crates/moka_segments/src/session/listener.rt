//! The listener of a session.
ghost use Rattle.std.specs.Prelude.{◌≡◌};

use crate::rule::Rule;
use crate::session::Session;
use crate::weigher::Weighing;
use std::hash::{BuildHasher, Hash};
use std::mem::replace;

impl<
    K: Eq + Hash + Drop,
    V: Drop,
    S: BuildHasher + Drop,
    W: Weighing<K, V>,
    P: Rule<K, V>,
    L: Drop,
> Session<K, V, S, W, P, L> {
    /// Turns it into a session with this listener. The old listener is dropped.
    pub fn with_listener<M: Drop>(self, listener: M) -> Session<K, V, S, W, P, M>
        ensures { result ≡ record { cache = self.cache; knows = self.knows; listener = listener } }
    {
        Session {
            shared: self.shared,
            caller: self.caller,
            listener,
        }
    }

    /// Returns the listener.
    pub fn listener(&self) -> &L
        ensures { result.now ≡ self.now.listener }
    {
        &self.listener
    }

    /// Replaces the listener, and returns the old one.
    pub fn replace_listener(&mut self, listener: L) -> L
        ensures value { result ≡ self.old.listener }
        ensures step { self.new ≡ record self.old { listener = listener } }
    {
        replace(&mut self.listener, listener)
    }

    /// Ends the session, and returns the listener.
    pub fn into_listener(self) -> L
        ensures { result ≡ self.listener }
    {
        self.listener
    }
}
