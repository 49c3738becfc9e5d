//! Look-ups by something borrowed that stands for a key: a text for a `String`, and a probe of one's own.
ghost use Rattle.std.specs.Prelude.{◌==◌, ◌&&◌};
ghost use Rattle.std.specs.Cmp.Rules.{comparing, hashing};
ghost use Rattle.std.specs.Str.{bytes_eq};
ghost use Rattle.std.specs.String.{string_bytes};
ghost use Rattle.std.proofs.Common.{rules};

use mini_moka::Error;
use mini_moka::common::Lookup;
use mini_moka::common::time::Instant;
use mini_moka::unsync::Cache;
use std::alloc::Global;

/// Returns the role of a user in a cache of roles, and of one who has none. No name is copied for a look-up.
pub fn role_of(alloc: Global, user: &str) -> Result<(Option<u32>, Option<u32>), Error> {
    let now = Instant::from_secs(0);
    let mut roles: Cache<String, u32> = Cache::new(alloc, 100)?;
    roles.insert(String::from_str(alloc, user)?, 7, now)?;
    let found = roles.get_by(user, now).copied();
    Ok((found, roles.get_by("nobody", now).copied()))
}

/// A server: the key of a cache.
#[derive(PartialEq, Eq, Hash, Drop)]
pub struct Server {
    pub host: String,
    pub port: u16,
}

/// Something by which a server is looked up.
#[derive(Clone, Copy, PartialEq, Eq, Hash)]
pub struct ServerRef<'a> {
    pub host: &'a str,
    pub port: u16,
}

impl<'a> Lookup<Server> for ServerRef<'a> {
    ghost stands_for = { λ q k. bytes_eq q.host.now (string_bytes k.host) && (q.port == k.port) };

    ghost hashes_alike = { Prim.search (comparing, hashing, rules) };

    ghost stands_for_equals = { Prim.search (comparing, rules) };

    fn stands_for(&self, key: &Server) -> bool {
        self.host == key.host.as_str() && self.port == key.port
    }
}

/// Counts a request to a server, and returns the number of requests so far. The look-up copies no name.
pub fn count_request(
    alloc: Global,
    requests: &mut Cache<Server, u64>,
    server: ServerRef<'_>,
    now: Instant,
) -> Result<u64, Error> {
    let count = match requests.get_by(server, now) {
        Some(earlier) => earlier.saturating_add(1),
        None => 1,
    };
    let host = String::from_str(alloc, server.host)?;
    let port = server.port;
    requests.insert(Server { host, port }, count, now)?;
    Ok(count)
}

/// Forgets a server, and returns the number of requests to it.
pub fn forget_server(
    requests: &mut Cache<Server, u64>,
    server: ServerRef<'_>,
    now: Instant,
) -> Option<u64> {
    requests.remove_by(server, now)
}
