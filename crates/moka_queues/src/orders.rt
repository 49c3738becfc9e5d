//! What is charged for which ticket, in order of use and in order of writing. Only here is a node found, added, changed or removed.
ghost use Rattle.std.specs.Prelude.{◌≡◌, ◌≤◌, ◌<◌, ◌+◌, ◌*◌, ◌-◌, ◌^◌, ℕ, [], length, nat_eq, slice_get};
ghost use Rattle.std.specs.Prelude.{IfOk, OnErr, OnOk, IfSome, IsNone, IsSome, None, Some, false};
ghost use Rattle.std.specs.List.{IsDistinct};
ghost use Rattle.std.specs.Map.{keys_of, lookup, remove_entry, set_value};
ghost use Rattle.moka_common.specs.Settings.{keeps_writes};
ghost use Rattle.moka_sync_model.specs.Ticket.{same_ticket};
ghost use Rattle.moka_list.specs.Nodes.{IsIn, first_id, moved_to_back, next_id};
ghost use Rattle.moka_sync_model.specs.Orders.{charge_of, charged_weight, is_written, used, rewritten, renewed, recharged, with_node, without_node};
ghost use Rattle.moka_queues.specs.OrdersState.{AddsNode, AtNode, IsNodeOf, orders_of};

use crate::high_water::HighWater;
use moka_common::error::OutOfMemory;
use moka_common::hash::Hashed;
use moka_common::limits::Limits;
use moka_list::chain::{IdList, NodeId};
use moka_list::indexed_list::IndexedList;
use moka_sync_model::ticket::Ticket;
use std::alloc::{AllocError, Allocator, Global};
use std::marker::Model;

/// The charge for the entry of a ticket.
#[derive(Clone, Copy, Debug)]
pub struct Node {
    pub ticket: Ticket,
    pub charge: u32,
    /// Set if the last scan found the entry, live or not.
    pub is_present: bool,
    /// Set if the order of writing lists the node.
    is_written: bool,
}

impl Hashed for Node {
    ghost hash_of = { λ node. node.ticket.hash };

    #[inline(always)]
    fn hash(&self) -> u64 {
        self.ticket.hash
    }
}

/// The nodes of the entries that are charged, least recently used first, and with a time to live the same nodes in order of writing. A node is found by
/// its ticket in constant time on average. A use or a write moves a node by links alone.
#[derive(Drop)]
pub struct Orders<A: Allocator + Clone + Drop = Global> {
    access: IndexedList<Node, A>,
    // Nodes by their ids, least recently written first.
    writes: IdList<A>,
    total: u128,
    high_water: HighWater,
}

impl<A: Allocator + Clone + Drop> Model for Orders<A> {
    ghost use Rattle.moka_queues.specs.OrdersState.{OrdersState};
    ghost use Rattle.moka_queues.specs.Kept.{IsKept, room_with, written_under};
    ghost use Rattle.moka_queues.specs.HighWater.{AreCovered};

    ghost Value = { OrdersState };

    ghost view = { λ o. record {
      nodes = o.access.items;
      written = written_under o.access.items o.writes.ids;
      room = room_with o.access.ids o.writes.capacity o.access.room;
    } };

    ghost invariant = { λ o. IsKept o.access.items o.writes.ids o.total × AreCovered o.access.items o.high_water };
}

impl<A: Allocator + Clone + Drop> Orders<A> {
    /// Makes orders without nodes.
    pub fn new(alloc: A) -> Result<Self, AllocError>
        ensures { IfOk result (λ orders. orders ≡ record { nodes = []; written = []; room = 0 }) }
    {
        Ok(Orders {
            access: IndexedList::new(
                alloc.clone()?,
                alloc.clone()?,
                alloc.clone()?,
                alloc.clone()?,
            ),
            writes: IdList::new(alloc),
            total: 0,
            high_water: HighWater::new(),
        })
    }

    /// Reserves capacity for one more node. If there is none, the capacity doubles, but stops at one more than the limit if it was
    /// within that. The order of writing gets links for as many, even without a time to live: `enter` may be called with other limits.
    pub fn reserve(&mut self, limits: &Limits) -> Result<(), OutOfMemory>
        ensures ok { OnOk result (0 < self.new.room) }
        ensures unchanged { self.new ≡ record self.old { room = self.new.room } }
    {
        let more = nodes_to_reserve(self.access.len(), self.access.capacity(), limits);
        self.access.reserve_exact(more)?;
        self.writes.reserve(self.access.ids())
    }

    /// Returns the number of nodes.
    pub fn len(&self) -> usize
        ensures value { result ≡ length self.now.nodes }

        // What holds of all orders: no id stands twice.
        ensures distinct { IsDistinct nat_eq (keys_of self.now.nodes) }
    {
        self.access.len()
    }

    /// Returns the sum of all charges.
    pub fn charged_weight(&self) -> u128
        ensures value { result ≡ charged_weight (orders_of self.now) }
        ensures small { result < 2 ^ 96 }
    {
        // At most `usize::MAX` charges of 32 bits come to less than 2^96.
        let _ = self.access.len();
        self.total
    }

    /// Returns the node of a ticket.
    pub fn find(&self, ticket: Ticket) -> Option<NodeId>
        ensures found { IfSome result (λ id. IsNodeOf self.now ticket id) }
        ensures absent { IsNone result → charge_of ticket (orders_of self.now) ≡ None }
        ensures unwritten { IsNone result → is_written ticket (orders_of self.now) ≡ false }
    {
        self.access.find(ticket.hash, |node| node.ticket == ticket)
    }

    /// Returns the node of a ticket, looking first at `hint`, which `enter` has returned. A right hint spares the look-up in the index, and so does a
    /// ticket above all of its shard that were charged.
    pub fn find_at(&self, ticket: Ticket, hint: usize) -> Option<NodeId>
        ensures found { IfSome result (λ id. IsNodeOf self.now ticket id) }
        ensures absent { IsNone result → charge_of ticket (orders_of self.now) ≡ None }
        ensures unwritten { IsNone result → is_written ticket (orders_of self.now) ≡ false }
    {
        let id = NodeId::from_number(hint);
        if self.access.contains(id) && self.access.get(id).ticket == ticket {
            return Some(id);
        }
        if self.high_water.is_below(ticket) {
            return None;
        }
        self.find(ticket)
    }

    /// Returns the node of an id.
    pub fn get(&self, id: NodeId) -> &Node
        requires { IsIn self.now.nodes id }
        ensures value { lookup (nat_eq id) self.now.nodes ≡ Some result.now }
        ensures small { result.now.charge < 2 ^ 32 }
    {
        self.access.get(id)
    }

    /// Returns the least recently used node.
    pub fn front(&self) -> Option<NodeId>
        ensures { result ≡ first_id self.now.nodes }
    {
        self.access.front()
    }

    /// Returns the node that was used next after this one.
    pub fn next(&self, id: NodeId) -> Option<NodeId>
        requires { IsIn self.now.nodes id }
        ensures { result ≡ next_id id self.now.nodes }
    {
        self.access.next(id)
    }

    /// Returns the ticket that was written the longest ago.
    pub fn oldest_write(&self) -> Option<Ticket>
        ensures value { result ≡ slice_get self.now.written 0 }
        ensures stands { IfSome result (λ t. IsSome (charge_of t (orders_of self.now))) }
    {
        let id = self.writes.front()?;
        Some(self.access.get(id).ticket)
    }

    /// Makes the node the most recently used one.
    #[inline]
    pub fn touch(&mut self, id: NodeId)
        requires { IsIn self.old.nodes id }
        ensures step { self.new ≡ record self.old { nodes = moved_to_back id self.old.nodes } }
        ensures orders { AtNode self.old id (λ n. orders_of self.new ≡ used n.ticket (orders_of self.old)) }
    {
        self.access.move_to_back(id);
    }

    /// Makes the ticket that was written the longest ago the one written last.
    pub fn requeue_oldest_write(&mut self)
        ensures step { self.new ≡ record self.old { written = self.new.written } }
        ensures orders { IfSome (slice_get self.old.written 0) (λ t. orders_of self.new ≡ rewritten t (orders_of self.old)) }
    {
        if let Some(oldest) = self.writes.front() {
            self.writes.move_to_back(oldest);
        }
    }

    /// Makes the node the most recent one in both orders.
    pub fn touch_both(&mut self, id: NodeId)
        requires { IsIn self.old.nodes id }
        ensures nodes { self.new.nodes ≡ moved_to_back id self.old.nodes }
        ensures unchanged { self.new ≡ record self.old { nodes = self.new.nodes; written = self.new.written } }
        ensures orders { AtNode self.old id (λ n. orders_of self.new ≡ renewed n.ticket (orders_of self.old)) }
    {
        self.requeue_write(id);
        self.touch(id);
    }

    /// Makes the node the one written last.
    fn requeue_write(&mut self, id: NodeId)
        requires { IsIn self.old.nodes id }
        ensures step { self.new ≡ record self.old { written = self.new.written } }
        ensures orders { AtNode self.old id (λ n. orders_of self.new ≡ rewritten n.ticket (orders_of self.old)) }
    {
        if self.access.get(id).is_written {
            self.writes.move_to_back(id);
        }
    }

    /// Sets what the node charges.
    pub fn recharge(&mut self, id: NodeId, weight: u32)
        requires { IsIn self.old.nodes id }
        ensures step { AtNode self.old id (λ n.
            self.new ≡ record self.old { nodes = set_value (nat_eq id) self.old.nodes (record n { charge = weight }) }) }
        ensures orders { AtNode self.old id (λ n. orders_of self.new ≡ recharged n.ticket weight (orders_of self.old)) }
    {
        let charge = self.access.get(id).charge;
        self.total = with_charge(&self.access, self.total - u128::from(charge), weight);
        self.access.update(id, |node| node.charge = weight);
    }

    /// Notes whether a scan found the entry of the node.
    pub fn set_present(&mut self, id: NodeId, is_present: bool)
        requires { IsIn self.old.nodes id }
        ensures step { AtNode self.old id (λ n.
            self.new ≡ record self.old { nodes = set_value (nat_eq id) self.old.nodes (record n { is_present = is_present }) }) }
        ensures orders { orders_of self.new ≡ orders_of self.old }
    {
        self.access.update(id, |node| node.is_present = is_present);
    }

    /// Adds a node at the back, also in the order of writing if there is a time to live. There must be room for it, and no node of its ticket, as `reserve`
    /// and `find` ensure. Returns a hint for `find_at`.
    pub fn enter(&mut self, ticket: Ticket, charge: u32, limits: &Limits) -> usize
        requires room { 0 < self.old.room }
        requires absent { charge_of ticket (orders_of self.old) ≡ None }
        ensures step { AddsNode self.old self.new ticket charge }
        ensures orders { orders_of self.new ≡ with_node (keeps_writes limits.now) ticket charge (orders_of self.old) }
    {
        self.total = with_charge(&self.access, self.total, charge);
        self.high_water.rise_to(ticket);
        let is_written = limits.has_time_to_live();
        let id = self.access.push_reserved(Node {
            ticket,
            charge,
            is_present: false,
            is_written,
        });
        if !is_written {
            return id.number();
        }
        self.writes.push_back(id);
        id.number()
    }

    /// Removes the node from both orders. Its room stays.
    pub fn remove(&mut self, id: NodeId)
        requires { IsIn self.old.nodes id }
        ensures nodes { self.new.nodes ≡ remove_entry (nat_eq id) self.old.nodes }
        ensures room { self.old.room ≤ self.new.room }
        ensures orders { AtNode self.old id (λ n. orders_of self.new ≡ without_node n.ticket (orders_of self.old)) }
    {
        let node = self.access.remove(id);
        self.total -= u128::from(node.charge);
        if node.is_written {
            self.writes.remove(id);
        }
    }
}

/// Returns a sum with one more charge. Fewer than 2^64 charges, of 32 bits each, come to less than 2^96.
fn with_charge<A: Allocator>(access: &IndexedList<Node, A>, total: u128, charge: u32) -> u128
    requires { total ≤ length access.now.items * (2 ^ 32 - 1) }
    ensures value { result ≡ total + charge }
    ensures small { charge < 2 ^ 32 }
{
    let _ = access.len();
    total + u128::from(charge)
}

/// Returns the number of nodes to reserve capacity for: one if it is there, or all up to the next capacity.
fn nodes_to_reserve(len: usize, capacity: usize, limits: &Limits) -> usize
    ensures { 0 < result }
{
    if len < capacity {
        return 1;
    }
    next_capacity(capacity, limits).saturating_sub(len).max(1)
}

/// Returns the next capacity of nodes: twice as many, but not past the limit. Weights of 0 pass it.
fn next_capacity(ids: usize, limits: &Limits) -> usize
    ensures { ids ≤ result }
{
    let twice = ids.saturating_add(1).max(ids.saturating_mul(2));
    match limits.max_capacity() {
        Some(limit) if (ids as u64) <= limit => twice.min((limit as usize).saturating_add(1)),
        _ => twice,
    }
}
