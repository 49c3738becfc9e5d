// The chain: the order of its elements once nodes have moved before others.
use moka_deque::deque::NodeId;
use moka_list::chain::Chain;
use std::alloc::Global;
use std::test::Fail;

/// The elements from front to back.
fn order(chain: &Chain<char>) -> [Option<char>; 4] {
    let mut order = [None; 4];
    let mut elements = chain.iter();
    for place in order.iter_mut() {
        *place = elements.next().copied();
    }
    order
}

/// The order once the node has moved.
fn order_after(chain: &mut Chain<char>, id: NodeId, next: NodeId) -> [Option<char>; 4] {
    if chain.contains(id) && chain.contains(next) && id != next {
        chain.move_before(id, next);
    }
    order(chain)
}

/// Returns the orders of four elements after four moves. The third moves before the first, the last before one in the middle, and twice an element past its
/// neighbour.
fn orders(elements: Global, links: Global) -> Result<[[Option<char>; 4]; 4], Fail> {
    let mut chain = Chain::new(elements, links);
    chain.reserve_exact(4)?;
    let (a, b) = (chain.push_reserved('a'), chain.push_reserved('b'));
    let (c, d) = (chain.push_reserved('c'), chain.push_reserved('d'));
    Ok([
        order_after(&mut chain, c, a),
        order_after(&mut chain, d, b),
        order_after(&mut chain, a, d),
        order_after(&mut chain, d, a),
    ])
}

/// The orders, worked by hand.
const ORDERS: [[Option<char>; 4]; 4] = [
    [Some('c'), Some('a'), Some('b'), Some('d')],
    [Some('c'), Some('a'), Some('d'), Some('b')],
    [Some('c'), Some('a'), Some('d'), Some('b')],
    [Some('c'), Some('d'), Some('a'), Some('b')],
];

#[test]
fn a_node_moves_before_another(rt: HostRuntime) -> Result<(), Fail> {
    assert_eq!(rt; orders(rt.alloc(), rt.alloc())?, ORDERS);
    Ok(())
}
