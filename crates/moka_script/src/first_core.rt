// What a script of the mode recorded or core begins with: a new core of its settings.
ghost use Rattle.std.specs.Prelude.{◌≡◌, None, IfErr, IfOk, option_map, unwrap_or};
ghost use Rattle.std.specs.Duration.{as_nanos};
ghost use Rattle.moka_grammar.specs.Options.{span_nanos};
ghost use Rattle.moka_script.specs.FirstCore.{IsFirstCore};
ghost use Rattle.moka_script.specs.UnsyncRun.{HasLimits, options_fault};

use crate::keys::KeyState;
use crate::stored::Stored;
use moka_common::error::BuildError;
use moka_common::policy::Policy;
use moka_common::settings::duration_fault;
use moka_core::engine::Core;
use moka_grammar::line::{CacheOptions, Span};
use moka_grammar::text::Text;
use moka_sync_model::constants::{SHARDS, WRITE_LOG_SIZE};
use moka_sync_model::settings::CoreParts;
use std::alloc::Allocator;
use std::time::Duration;

/// A core that a script's steps or calls are made on.
pub(crate) type ScriptCore<W, A> = Core<u64, Stored<Text<A>>, KeyState, W, A>;

/// Makes a new core with the settings and this weigher, whose shards give out the ticket numbers from the given one on, or from 0.
pub(crate) fn first_core<A: Allocator + Clone + Drop, W: Drop>(
    alloc: A,
    options: CacheOptions,
    weigher: W,
) -> Result<ScriptCore<W, A>, BuildError>
    ensures legal { IfOk result (λ core. options_fault options ≡ None) }
    ensures first { IfOk result (λ core. IsFirstCore options core.state) }
    ensures weigher { IfOk result (λ core. core.weigher ≡ weigher) }
    ensures err { IfErr result (λ error. error ≡ unwrap_or (options_fault options) BuildError.OutOfMemory) }
{
    let policy = policy_of(options);
    if let Some(fault) = duration_fault(policy.time_to_live(), policy.time_to_idle()) {
        return Err(fault);
    }
    let parts = CoreParts {
        hash_state: KeyState,
        policy,
        is_weighed: options.weighed,
        weigher,
        capacity: WRITE_LOG_SIZE.div_ceil(SHARDS),
    };
    let core = Core::from_parts(alloc, parts)?;
    Ok(core.with_first_ticket(options.tickets.unwrap_or(0)))
}

/// Returns the limits of the settings.
fn policy_of(options: CacheOptions) -> Policy
    ensures { HasLimits result options }
{
    Policy::new(
        options.max,
        duration_of(options.live),
        duration_of(options.idle),
    )
}

fn duration_of(span: Option<Span>) -> Option<Duration>
    ensures { option_map as_nanos result ≡ option_map span_nanos span }
{
    match span {
        Some(span) => Some(span.to_duration()),
        None => None,
    }
}
