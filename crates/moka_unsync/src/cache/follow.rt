// How the limits of a cache's parts follow what it remembers.
ghost use Rattle.std.specs.Prelude.{◌≡◌, ◌<◌, Some, is_some, option_map};
ghost use Rattle.moka_unsync_model.specs.CacheState.{windowed};
ghost use Rattle.moka_unsync_model.specs.Contents.{entry_at, main_of, total_weight};
ghost use Rattle.moka_unsync_model.specs.Shares.{limits_of, main_limit};
ghost use Rattle.moka_unsync_model.specs.Told.{TellsWhatLeft};
ghost use Rattle.moka_unsync_model.specs.declared.listener.Cause.TheVariants.{Size};
ghost use Rattle.moka_unsync.specs.Cached.{after_following, gained_in};

use crate::cache::Cache;
use crate::leaving::give_up;
use crate::part_limits::limits_of;
use crate::victims::{main_limit, main_weight};
use moka_unsync_model::entry::Part;
use moka_unsync_model::listener::Listener;
use moka_unsync_model::shares::PartLimits;
use std::alloc::Allocator;
use std::hash::{BuildHasher, Hash};

impl<
    K: Eq + Hash + Drop,
    V: Drop,
    S: BuildHasher + Drop,
    W: Drop,
    A: Allocator + Clone + Drop,
> Cache<K, V, S, W, A> {
    /// Gives the window what the memory asks for, after a new entry came to a part or was rejected. If that entry stands in the window, main gives up as much
    /// as the window gains. A window that gets less keeps its entries until the next one comes.
    pub(crate) fn follow<L: Listener<K, V>>(
        &mut self,
        limits: PartLimits,
        part: Option<Part>,
        listener: &mut L,
    )
        requires { windowed self.old ≡ Some limits }
        ensures step { self.new ≡ after_following K.eq self.old.memory limits part self.old }
        ensures windowed { windowed self.new ≡ Some (limits_of self.new.shares limits.all) }
        ensures stays { (key : K) → part ≡ option_map (λ e. e.part) (entry_at K.eq key self.old.contents.entries)
            → is_some (entry_at K.eq key self.new.contents.entries) ≡ is_some part }
        ensures told { TellsWhatLeft L.hears Size
            (λ e. (0 < gained_in part self.old.shares.extra self.new.shares.extra)
            × (main_limit (limits_of self.new.shares limits.all) < total_weight (main_of self.old.contents.entries)))
            self.old.contents.entries self.new.contents.entries listener.old listener.new }
    {
        let Some(memory) = &mut self.memory else {
            return;
        };
        let before = self.shares.extra;
        let extra = memory.extra(self.shares, limits.all);
        if extra == before {
            self.store.limit_protected(limits.protected);
            return;
        }
        self.shares.extra = extra;
        let followed = limits_of(self.shares, limits.all);
        let gained = gained_in(part, before, self.shares.extra);
        let above = main_weight(&self.store).saturating_sub(main_limit(&followed));
        give_up(
            &mut self.store,
            above - above.saturating_sub(gained),
            memory,
            listener,
        );
        self.store.limit_protected(followed.protected);
        self.windowed = Some(followed);
    }
}

/// Returns what the window has gained, if a new entry stands in it.
fn gained_in(part: Option<Part>, before: u64, after: u64) -> u64
    ensures { result ≡ gained_in part before after }
{
    match part {
        Some(Part::Window) => after.saturating_sub(before),
        _ => 0,
    }
}
