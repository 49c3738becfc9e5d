// The turns that decide whether an entry enters: the scan, the removals and the entering.
ghost use Rattle.std.specs.Prelude.{◌≡◌, ◌≤◌, ◌<◌, ◌+◌, ◌^◌, [], ◌∷◌, ◌++◌, None, Option, Some, drop, option_copied, option_map};
ghost use Rattle.moka_sync_model.specs.declared.constants.TheConstants.{MAX_ABSENT, MAX_ROUNDS};
ghost use Rattle.moka_common.specs.Settings.{keeps_writes};
ghost use Rattle.moka_sync_model.specs.Entry.{Entry as EntryState};
ghost use Rattle.moka_sync_model.specs.Turn.Plan.{Alone, gone_to, moved_on};
ghost use Rattle.moka_sync_model.specs.Parts.{NeedsNothing, NeedsShard, need_of};
ghost use Rattle.moka_sync_model.specs.declared.progress.Work.{Work};
ghost use Rattle.moka_maintenance.specs.Need.{need_named};
ghost use Rattle.moka_sync_model.specs.Orders.{without_node};
ghost use Rattle.moka_sync_model.specs.Turn.Admission.{after_entering, after_finding, after_rejection, after_seeing};
ghost use Rattle.moka_sync_model.specs.Turn.Admission.{after_victim, is_decided, next_seen, removing_or_enter};
ghost use Rattle.moka_queues.specs.OrdersState.{AtNode, orders_of};
ghost use Rattle.moka_maintenance.specs.Held.{HoldsIn, IsEntering, IsRemoving, IsScanning, LooksAt, first_seen, first_tickets};
ghost use Rattle.moka_maintenance.specs.Held.{maintenance_of, next_id_if, outcome_of, removal_plan, scan_plan, state_of_removal};

use crate::maintenance::Need;
use crate::maintenance::fronts::{requeue_front, requeue_missing};
use crate::maintenance::phase::{PhaseState, Removal, Scan};
use crate::maintenance::state::State;
use crate::maintenance::writes::writes_or_on;
use moka_list::chain::NodeId;
use moka_sync_model::constants::MAX_ABSENT;
use moka_sync_model::entry::{Entry, EntryChange};
use moka_sync_model::progress::{Candidate, Tally, Work};
use moka_sync_model::settings::Settings;
use moka_sync_model::ticket::Ticket;
use std::alloc::Allocator;

impl Scan {
    /// Returns the node that it looks at next, or `None` if it has ended.
    pub(crate) fn next_seen(&self) -> Option<NodeId>
        ensures { result ≡ next_id_if (is_decided self.now.candidate self.now.tally) self.now.next }
    {
        if self.tally.decides(&self.candidate) {
            return None;
        }
        self.next
    }
}

/// Returns `Removing` if victims are left, and `Enter` otherwise.
fn removing_or_enter(work: Work, removal: Removal) -> PhaseState
    ensures { result ≡ state_of_removal work removal }
{
    if removal.left == 0 {
        return PhaseState::Enter {
            work,
            candidate: removal.candidate,
            skipped: removal.skipped,
        };
    }
    PhaseState::Removing { work, removal }
}

impl<A: Allocator + Clone + Drop> State<A> {
    /// Looks at the next node of a scan that hasn't ended. `weight` is that of its entry, if there is one.
    pub(crate) fn see<K: Drop, V: Drop>(
        &mut self,
        work: Work,
        scan: Scan,
        id: NodeId,
        weight: Option<u32>,
    )
        requires round { work.round ≤ MAX_ROUNDS }
        requires scanning { IsScanning self.old.orders scan }
        requires next { next_id_if (is_decided scan.candidate scan.tally) scan.next ≡ Some id }
        ensures step { (found : Option (EntryState K V)) → option_map (λ e. e.weight) found ≡ weight
            → AtNode self.old.orders id (λ n. outcome_of EntryChange.Stays self.new
            ≡ after_seeing work scan.candidate scan.tally (first_seen scan.seen self.old.orders.nodes)
            n.ticket (maintenance_of self.old) found) }
        ensures holds { HoldsIn self.new.orders self.new.phase }
    {
        let ticket = self.orders.get(id).ticket;
        let tally = self.with_found::<K, V>(scan.tally, ticket, weight);
        let next = self.orders.next(id);
        self.orders.set_present(id, weight.is_some());
        self.phase = PhaseState::Scanning {
            work,
            scan: Scan {
                candidate: scan.candidate,
                tally,
                seen: scan.seen + 1,
                next,
            },
        };
    }

    /// Returns the tally once one more entry was looked at. `weight` is that of the entry, if there is one.
    fn with_found<K: Drop, V: Drop>(
        &self,
        tally: Tally,
        ticket: Ticket,
        weight: Option<u32>,
    ) -> Tally
        requires small { (tally.weight < 2 ^ 32) × (tally.estimate < 2 ^ 8) × (tally.absent < MAX_ABSENT) }
        ensures { (found : Option (EntryState K V)) → option_map (λ e. e.weight) found ≡ weight
            → result ≡ after_finding self.now.sketch ticket tally found }
    {
        let Some(weight) = weight else {
            return Tally {
                weight: tally.weight,
                estimate: tally.estimate,
                absent: tally.absent + 1,
            };
        };
        Tally {
            weight: tally.weight + u64::from(weight),
            estimate: tally.estimate + u32::from(self.sketch.frequency(ticket.hash)),
            absent: 0,
        }
    }

    /// Rejects the candidate: its entry leaves, and the nodes that were absent go to the back.
    pub(crate) fn reject<K: Drop, V: Drop>(&mut self, work: Work, scan: Scan) -> EntryChange
        requires round { work.round ≤ MAX_ROUNDS }
        requires scanning { IsScanning self.old.orders scan }
        ensures step { (found : Option (EntryState K V)) → outcome_of result self.new
            ≡ after_rejection work (first_seen scan.seen self.old.orders.nodes) (maintenance_of self.old) found }
        ensures holds { HoldsIn self.new.orders self.new.phase }
    {
        requeue_missing(&mut self.orders, scan.seen);
        self.phase = writes_or_on(work);
        EntryChange::Leaves
    }

    /// Admits the candidate: the nodes that were seen are removed next.
    pub(crate) fn admit(&mut self, work: Work, scan: Scan)
        requires round { work.round ≤ MAX_ROUNDS }
        requires scanning { IsScanning self.old.orders scan }
        ensures step { maintenance_of self.new ≡ gone_to (removing_or_enter work scan.candidate scan.tally []
            (first_seen scan.seen self.old.orders.nodes)) (maintenance_of self.old) }
        ensures holds { HoldsIn self.new.orders self.new.phase }
    {
        self.phase = removing_or_enter(
            work,
            Removal {
                candidate: scan.candidate,
                tally: scan.tally,
                skipped: 0,
                left: scan.seen,
                next: self.orders.front(),
            },
        );
    }

    /// Skips the next node, whose entry was absent or has left since.
    pub(crate) fn skip(&mut self, work: Work, removal: Removal, id: NodeId)
        requires round { work.round ≤ MAX_ROUNDS }
        requires removing { IsRemoving self.old.orders removal }
        requires left { 0 < removal.left }
        requires next { removal.next ≡ Some id }
        ensures step { AtNode self.old.orders id (λ n. maintenance_of self.new
            ≡ gone_to (removing_or_enter work removal.candidate removal.tally
            (first_tickets removal.skipped self.old.orders.nodes ++ n.ticket ∷ [])
            (drop 1 (first_seen removal.left (drop removal.skipped self.old.orders.nodes)))) (maintenance_of self.old)) }
        ensures holds { HoldsIn self.new.orders self.new.phase }
    {
        self.phase = removing_or_enter(
            work,
            Removal {
                candidate: removal.candidate,
                tally: removal.tally,
                skipped: removal.skipped + 1,
                left: removal.left - 1,
                next: self.orders.next(id),
            },
        );
    }

    /// Removes the next node with its entry.
    fn remove_next(&mut self, work: Work, removal: Removal, id: NodeId)
        requires round { work.round ≤ MAX_ROUNDS }
        requires removing { IsRemoving self.old.orders removal }
        requires left { 0 < removal.left }
        requires next { removal.next ≡ Some id }
        ensures step { AtNode self.old.orders id (λ n. maintenance_of self.new
            ≡ moved_on (maintenance_of self.old) (without_node n.ticket (orders_of self.old.orders))
            (removing_or_enter work removal.candidate removal.tally
            (first_tickets removal.skipped self.old.orders.nodes)
            (drop 1 (first_seen removal.left (drop removal.skipped self.old.orders.nodes))))) }
        ensures holds { HoldsIn self.new.orders self.new.phase }
    {
        let next = self.orders.next(id);
        self.orders.remove(id);
        self.phase = removing_or_enter(
            work,
            Removal {
                candidate: removal.candidate,
                tally: removal.tally,
                skipped: removal.skipped,
                left: removal.left - 1,
                next,
            },
        );
    }

    /// Removes a victim if its entry is still there, and skips it otherwise.
    pub(crate) fn remove_victim<K: Drop, V: Drop>(
        &mut self,
        work: Work,
        removal: Removal,
        id: NodeId,
        found: Option<&Entry<K, V, A>>,
    ) -> EntryChange
        requires round { work.round ≤ MAX_ROUNDS }
        requires removing { IsRemoving self.old.orders removal }
        requires left { 0 < removal.left }
        requires next { removal.next ≡ Some id }
        ensures step { AtNode self.old.orders id (λ n. outcome_of result self.new
            ≡ after_victim work removal.candidate removal.tally
            (first_tickets removal.skipped self.old.orders.nodes) (record { ticket = n.ticket; is_present = n.is_present })
            (drop 1 (first_seen removal.left (drop removal.skipped self.old.orders.nodes))) (maintenance_of self.old) (option_copied found.entry)) }
        ensures holds { HoldsIn self.new.orders self.new.phase }
    {
        if found.is_none() {
            self.skip(work, removal, id);
            return EntryChange::Stays;
        }
        self.remove_next(work, removal, id);
        EntryChange::Leaves
    }

    /// Enters the candidate with its current weight, if its entry is still there, and moves the skipped nodes to the back.
    pub(crate) fn enter<K: Drop, V: Drop, S: Drop>(
        &mut self,
        settings: &Settings<S, A>,
        work: Work,
        candidate: Candidate,
        skipped: usize,
        found: Option<&Entry<K, V, A>>,
    ) -> EntryChange
        requires round { work.round ≤ MAX_ROUNDS }
        requires entering { IsEntering self.old.orders candidate skipped }
        ensures step { outcome_of result self.new
            ≡ after_entering (keeps_writes settings.now.policy) work candidate
            (first_tickets skipped self.old.orders.nodes) (maintenance_of self.old) (option_copied found.entry) }
        ensures holds { HoldsIn self.new.orders self.new.phase }
    {
        let Some(standing) = found else {
            requeue_front(&mut self.orders, skipped);
            self.phase = writes_or_on(work);
            return EntryChange::Stays;
        };
        let hint = self
            .orders
            .enter(candidate.ticket, standing.weight(), settings.limits());
        standing.set_node_hint(hint);
        requeue_front(&mut self.orders, skipped);
        self.phase = writes_or_on(work);
        EntryChange::UpsertDone
    }

    /// Returns what a scan needs: the entry of the next node, or that of a candidate that is rejected.
    pub(crate) fn need_of_scan<K: Drop, V: Drop>(&self, scan: Scan) -> Need
        requires { IsScanning self.now.orders scan }
        ensures { (work : Work) → need_named result ≡ need_of (scan_plan {K = K} {V = V} work scan self.now) }
    {
        if let Some(id) = scan.next_seen() {
            return Need::Entry(self.orders.get(id).ticket);
        }
        if scan.tally.admits(&scan.candidate) {
            return Need::Nothing;
        }
        Need::Entry(scan.candidate.ticket)
    }

    /// Takes a turn of a scan that needs an entry. `weight` is the entry's, if there is one.
    #[inline(always)]
    pub(crate) fn scan<K: Drop, V: Drop>(
        &mut self,
        work: Work,
        scan: Scan,
        weight: Option<u32>,
    ) -> EntryChange
        requires round { work.round ≤ MAX_ROUNDS }
        requires scanning { IsScanning self.old.orders scan }
        requires need { (t : Ticket) × (need_of (scan_plan {K = K} {V = V} work scan self.old) ≡ NeedsShard t) }
        ensures step { (found : Option (EntryState K V)) → option_map (λ e. e.weight) found ≡ weight
            → LooksAt (scan_plan work scan self.old) found result self.new }
        ensures holds { HoldsIn self.new.orders self.new.phase }
    {
        let Some(id) = scan.next_seen() else {
            return self.reject::<K, V>(work, scan);
        };
        self.see::<K, V>(work, scan, id, weight);
        EntryChange::Stays
    }

    /// Returns what the removals need: the entry of the next node, if it was present.
    pub(crate) fn need_of_removal<K: Drop, V: Drop>(&self, removal: Removal) -> Need
        requires left { 0 < removal.left }
        requires removing { IsRemoving self.now.orders removal }
        ensures { (work : Work) → need_named result ≡ need_of (removal_plan {K = K} {V = V} work removal self.now) }
    {
        let Some(id) = removal.next else {
            return Need::Nothing;
        };
        let node = self.orders.get(id);
        if node.is_present {
            return Need::Entry(node.ticket);
        }
        Need::Nothing
    }

    /// Takes a turn of the removals at a node whose entry was absent.
    pub(crate) fn skip_absent<K: Drop, V: Drop>(&mut self, work: Work, removal: Removal)
        requires round { work.round ≤ MAX_ROUNDS }
        requires left { 0 < removal.left }
        requires removing { IsRemoving self.old.orders removal }
        requires need { need_of (removal_plan {K = K} {V = V} work removal self.old) ≡ NeedsNothing }
        ensures step { removal_plan {K = K} {V = V} work removal self.old ≡ Alone (maintenance_of self.new) }
        ensures holds { HoldsIn self.new.orders self.new.phase }
    {
        if let Some(id) = removal.next {
            self.skip(work, removal, id);
        }
    }

    /// Takes a turn of the removals at a node whose entry was present.
    pub(crate) fn remove<K: Drop, V: Drop>(
        &mut self,
        work: Work,
        removal: Removal,
        found: Option<&Entry<K, V, A>>,
    ) -> EntryChange
        requires round { work.round ≤ MAX_ROUNDS }
        requires left { 0 < removal.left }
        requires removing { IsRemoving self.old.orders removal }
        requires need { (t : Ticket) × (need_of (removal_plan {K = K} {V = V} work removal self.old) ≡ NeedsShard t) }
        ensures step { LooksAt (removal_plan work removal self.old) (option_copied found.entry) result self.new }
        ensures holds { HoldsIn self.new.orders self.new.phase }
    {
        let Some(id) = removal.next else {
            return EntryChange::Stays;
        };
        self.remove_victim(work, removal, id, found)
    }
}

/// Returns the weight of an entry, if there is one.
#[inline(always)]
pub(super) fn weight_of<K: Drop, V: Drop, A: Allocator + Drop>(
    found: Option<&Entry<K, V, A>>,
) -> Option<u32>
    ensures { result ≡ option_map (λ e. e.weight) (option_copied found.entry) }
{
    Some(found?.weight())
}
