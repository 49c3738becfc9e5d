// Changes of the orders at a ticket, and at their fronts.
ghost use Rattle.std.specs.Prelude.{◌≡◌, ◌≤◌, ◌<◌, length, IfSome, false, true};
ghost use Rattle.moka_sync_model.specs.Orders.{all_used, renewed, used, without_node};
ghost use Rattle.moka_sync_model.specs.Turn.Admission.{absent_of};
ghost use Rattle.moka_list.specs.Nodes.{IsIn, moved_to_back, next_id};
ghost use Rattle.moka_queues.specs.OrdersState.{AtNode, orders_of};
ghost use Rattle.moka_maintenance.specs.Fronts.{IsSent, front_of};
ghost use Rattle.moka_maintenance.specs.Held.{first_seen, first_tickets};

use moka_list::chain::NodeId;
use moka_queues::orders::Orders;
use moka_sync_model::ticket::Ticket;
use std::alloc::Allocator;

/// Makes the node of a ticket, if there is one, the most recently used one, looking at `hint` first.
pub(crate) fn touch_ticket<A: Allocator + Clone + Drop>(
    orders: &mut Orders<A>,
    ticket: Ticket,
    hint: usize,
)
    ensures { orders_of orders.new ≡ used ticket (orders_of orders.old) }
{
    if let Some(id) = orders.find_at(ticket, hint) {
        orders.touch(id);
    }
}

/// Removes the node of a ticket, if there is one.
pub(crate) fn remove_ticket<A: Allocator + Clone + Drop>(orders: &mut Orders<A>, ticket: Ticket)
    ensures { orders_of orders.new ≡ without_node ticket (orders_of orders.old) }
{
    if let Some(id) = orders.find(ticket) {
        orders.remove(id);
    }
}

/// Returns the ticket of the least recently used node.
pub(crate) fn front_ticket<A: Allocator + Clone + Drop>(orders: &Orders<A>) -> Option<Ticket>
    ensures { result ≡ front_of orders.now }
{
    let id = orders.front()?;
    Some(orders.get(id).ticket)
}

/// Makes the least recently used node the most recently used one.
pub(crate) fn touch_front<A: Allocator + Clone + Drop>(orders: &mut Orders<A>)
    ensures { IfSome (front_of orders.old) (λ t. orders_of orders.new ≡ used t (orders_of orders.old)) }
{
    if let Some(id) = orders.front() {
        orders.touch(id);
    }
}

/// Makes the least recently used node the most recent one in both orders.
pub(crate) fn touch_front_both<A: Allocator + Clone + Drop>(orders: &mut Orders<A>)
    ensures { IfSome (front_of orders.old) (λ t. orders_of orders.new ≡ renewed t (orders_of orders.old)) }
{
    if let Some(id) = orders.front() {
        orders.touch_both(id);
    }
}

/// Removes the least recently used node.
pub(crate) fn remove_front<A: Allocator + Clone + Drop>(orders: &mut Orders<A>)
    ensures { IfSome (front_of orders.old) (λ t. orders_of orders.new ≡ without_node t (orders_of orders.old)) }
{
    if let Some(id) = orders.front() {
        orders.remove(id);
    }
}

/// Moves the least recently used node to the back. There must be a node.
fn send_front<A: Allocator + Clone + Drop>(orders: &mut Orders<A>)
    requires { 0 < length orders.old.nodes }
    ensures { IsSent orders.old orders.new }
{
    if let Some(id) = orders.front() {
        orders.touch(id);
    }
}

/// Moves `count` nodes from the front to the back, one after another.
pub(crate) fn requeue_front<A: Allocator + Clone + Drop>(orders: &mut Orders<A>, count: usize)
    requires { count ≤ length orders.old.nodes }
    ensures { orders_of orders.new ≡ all_used (first_tickets count orders.old.nodes) (orders_of orders.old) }
{
    'send: for _ in 0..count {
        send_front(orders);
    }
}

/// Moves a node to the back if a scan has marked it as absent. Returns the node that was after it.
fn send_if_absent<A: Allocator + Clone + Drop>(orders: &mut Orders<A>, id: NodeId) -> Option<NodeId>
    requires { IsIn orders.old.nodes id }
    ensures next { result ≡ next_id id orders.old.nodes }
    ensures stays { AtNode orders.old id (λ n. n.is_present ≡ true → orders.new ≡ orders.old) }
    ensures moved { AtNode orders.old id (λ n. n.is_present ≡ false → orders.new.nodes ≡ moved_to_back id orders.old.nodes) }
    ensures sends { AtNode orders.old id (λ n. n.is_present ≡ false → orders_of orders.new ≡ used n.ticket (orders_of orders.old)) }
{
    let next = orders.next(id);
    let is_present = orders.get(id).is_present;
    if !is_present {
        orders.touch(id);
    }
    next
}

/// Moves those of the first `count` nodes to the back that a scan has marked as absent, one after another.
pub(crate) fn requeue_missing<A: Allocator + Clone + Drop>(orders: &mut Orders<A>, count: usize)
    requires { count ≤ length orders.old.nodes }
    ensures { orders_of orders.new ≡ all_used (absent_of (first_seen count orders.old.nodes)) (orders_of orders.old) }
{
    // No id stands twice.
    let _ = orders.len();
    let mut here = orders.front();
    'send: for _ in 0..count {
        let Some(id) = here else {
            return;
        };
        here = send_if_absent(orders, id);
    }
}
