//! Rules that each pair of a cache meets, whichever thread inserts it.
ghost use Rattle.std.specs.Prelude.{◌≡◌, ⊤, true};

/// A rule of the pairs of a cache. Each insert has to meet it, and each pair that comes out of the cache does.
///
/// This is the rule of a cache of squares:
///
/// ```
/// #[derive(Drop)]
/// pub struct IsSquare;
///
/// impl PairRule<u32, u64> for IsSquare {
///     ghost holds = { λ key value. value ≡ key * key };
///
///     ghost agrees = { λ key other value same is. subst (λ k. value ≡ k * k) (eqb-true key other same) is };
/// }
/// ```
///
/// A cache has it by its builder, as `Cache::builder(alloc).pair_rule::<IsSquare>().build()?`. Then what is found needs no test:
///
/// ```
/// /// The square of a number by a cache of squares: what is found is the square, whoever has inserted it.
/// pub fn square<R: Wait>(
///     rt: &R,
///     squares: &Cache<u32, u64, FixedState, IsSquare>,
///     number: u32,
///     now: Instant,
/// ) -> Result<u64, Error>
///     ensures { IfOk result (λ square. square ≡ number * number) }
/// {
///     if let Some(found) = squares.get(rt, &number, now)? {
///         return Ok(found);
///     }
///     let square = u64::from(number) * u64::from(number);
///     squares.insert(rt, number, square, now)?;
///     Ok(square)
/// }
/// ```
pub trait PairRule<K: Eq, V> {
    // What holds of a key and its value.
    ghost holds: { K → V → Type 0 };

    // It holds of equal keys alike.
    ghost agrees: { (key other : K) (value : V) → K.eq key other ≡ true → holds key value → holds other value };
}

/// The rule that all pairs meet.
#[derive(Drop)]
pub struct AnyPair;

impl<K: Eq, V> PairRule<K, V> for AnyPair {
    ghost holds = { λ _ _. ⊤ };

    ghost agrees = { λ _ _ _ _ _. tt };
}
