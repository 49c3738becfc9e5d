// The limits of a cache's parts: the window, and main's protected entries.
ghost use Rattle.std.specs.Prelude.{◌≡◌, ◌≤◌, ◌+◌, ◌*◌, None, OnSome, Some};
ghost use Rattle.moka_unsync_model.specs.Memory.{most_extra, slack_of};
ghost use Rattle.moka_unsync_model.specs.Shares.{adaptive, default_shares, hundredths, limits_of, protected_room, windowed_limits};
ghost use Rattle.moka_unsync.specs.Builder.{share_fault};

use moka_common::error::BuildError;
use moka_unsync_model::constants::{
    ADAPTIVE_PROTECTED_SHARE, DEMAND_SLACK, MOST_WINDOW_SHARE, PROTECTED_SHARE, WINDOW_SHARE,
};
use moka_unsync_model::shares::{PartLimits, Shares};

/// Returns the default shares.
pub(crate) fn default_shares() -> Shares
    ensures { result ≡ default_shares }
{
    Shares {
        window: WINDOW_SHARE,
        protected: PROTECTED_SHARE,
        adapts: false,
        extra: 0,
    }
}

/// Returns the shares with which a window that adapts begins.
pub(crate) fn adaptive(shares: Shares) -> Shares
    ensures { result ≡ adaptive shares }
{
    Shares {
        window: WINDOW_SHARE,
        protected: ADAPTIVE_PROTECTED_SHARE,
        adapts: true,
        ..shares
    }
}

/// Returns the reason to refuse these shares, if there is one. The window's share is tested first.
pub(crate) fn share_fault(shares: Shares) -> Option<BuildError>
    ensures { result ≡ share_fault shares }
{
    if shares.window > 100 {
        return Some(BuildError::WindowShareTooLarge);
    }
    if shares.protected > 100 {
        return Some(BuildError::ProtectedShareTooLarge);
    }
    None
}

/// Returns that many hundredths of a weight, rounded down. The product doesn't overflow.
fn hundredths(share: u8, weight: u64) -> u64
    requires { share ≤ 100 }
    ensures value { result ≡ hundredths share weight }
    ensures part { result ≤ weight }
{
    let share = u64::from(share);
    weight / 100 * share + weight % 100 * share / 100
}

/// Returns the most weight that the window may have beyond its share.
pub(crate) fn most_extra(shares: Shares, limit: u64) -> u64
    requires { shares.window ≤ 100 }
    ensures { result ≡ most_extra shares limit }
{
    hundredths(MOST_WINDOW_SHARE, limit).saturating_sub(hundredths(shares.window, limit))
}

/// Returns a demand that is ignored, as a weight.
pub(crate) fn slack_of(limit: u64) -> u64
    ensures { result ≡ slack_of limit }
{
    limit / DEMAND_SLACK
}

/// Returns the limits of the parts for a limit of the whole.
pub(crate) fn limits_of(shares: Shares, limit: u64) -> PartLimits
    requires window { shares.window ≤ 100 }
    requires protected { shares.protected ≤ 100 }
    requires extra { shares.extra ≤ most_extra shares limit }
    ensures { result ≡ limits_of shares limit }
{
    let window = hundredths(shares.window, limit) + shares.extra;
    PartLimits {
        all: limit,
        window,
        protected: hundredths(shares.protected, limit - window),
    }
}

/// Returns the limits of the parts, if the window's share can hold an entry.
pub(crate) fn windowed_limits(shares: Shares, limit: Option<u64>) -> Option<PartLimits>
    requires window { shares.window ≤ 100 }
    requires protected { shares.protected ≤ 100 }
    requires extra { shares.extra ≡ 0 }
    ensures { result ≡ windowed_limits shares limit }
{
    let limits = limits_of(shares, limit?);
    if limits.window == 0 {
        None
    } else {
        Some(limits)
    }
}

/// Returns the weight limit of the protected entries, which is 0 in a cache without a limit.
pub(crate) fn protected_room(shares: Shares, limit: Option<u64>) -> u64
    requires window { shares.window ≤ 100 }
    requires protected { shares.protected ≤ 100 }
    requires extra { shares.extra ≡ 0 }
    ensures { result ≡ protected_room shares limit }
{
    match limit {
        Some(limit) => limits_of(shares, limit).protected,
        None => 0,
    }
}
