//! Rules that a cache keeps, whichever thread calls it.
ghost use Rattle.std.specs.Prelude.{⊤};

/// Rules of a cache: which pairs may be inserted, and which visitors may insert, invalidate or remove a key.
///
/// Each insert and each change of a value has to meet the rule of pairs, and each pair that is found does. A visitor is named by its number: sessions from
/// `SegmentedCache::session` have the numbers of guests (`guest`), and `Owners` hands out sessions with those of owners (`owner`). If only one number may write
/// a key, its session finds there what it wrote last, or nothing for a reason, whatever other threads do.
///
/// This is the rule of a cache whose keys have one writer, the first owner:
///
/// ```
/// #[derive(Drop)]
/// pub struct OneWriter;
///
/// impl<V> Rule<u64, V> for OneWriter {
///     ghost rules = { record { holds = λ key value. ⊤; owns = λ by key. by ≡ owner 0 } };
///
///     ghost agree = { record { holds = λ key other value same is. tt; owns = λ by key other same is. is } };
/// }
/// ```
pub trait Rule<K: Eq, V> {
    ghost use Rattle.moka_segments.specs.Rules.{Agree, Rules};

    // Which pairs may be inserted, and which visitors may write a key.
    ghost rules: { Rules K V };

    // They hold of equal keys alike.
    ghost agree: { Agree K.eq rules };
}

/// No rule: every pair may be inserted, and every visitor may write every key.
#[derive(Drop)]
pub struct Unruled;

impl<K: Eq, V> Rule<K, V> for Unruled {
    ghost rules = { record { holds = λ key value. ⊤; owns = λ by key. ⊤ } };

    ghost agree = { record { holds = λ key other value same is. tt; owns = λ by key other same is. tt } };
}
