//! A chain and a circle beside an element, against values by hand.

use std::alloc::{AllocError, Global};
use std::test::Fail;
use xc_base::List;
use xc_order::{Order, Pair};

// The least and the greatest element, and the height where there is one.
fn told(alloc: Global, order: &Order) -> Result<String, AllocError> {
    let (least, greatest) = (order.first_below_all(), order.first_above_all());
    if order.antisymmetric() {
        let height = order.height();
        format!(in alloc; "{least:?} {greatest:?} {height}")
    } else {
        format!(in alloc; "{least:?} {greatest:?}")
    }
}

#[test]
fn a_chain(rt: HostRuntime) -> Result<(), Fail> {
    let pairs = List::of(
        rt.alloc(),
        &[Pair { low: 2, high: 1 }, Pair { low: 1, high: 0 }],
    )?;
    let chain = Order::of(rt.alloc(), 3, &pairs)?.copy(rt.alloc())?;
    assert_eq!(rt; told(rt.alloc(), &chain)?.as_str(), "Some(2) Some(0) 2");
    Ok(())
}

#[test]
fn a_circle_beside_an_element(rt: HostRuntime) -> Result<(), Fail> {
    let pairs = List::of(
        rt.alloc(),
        &[Pair { low: 0, high: 1 }, Pair { low: 1, high: 0 }],
    )?;
    let circle = Order::of(rt.alloc(), 3, &pairs)?;
    assert_eq!(rt; told(rt.alloc(), &circle)?.as_str(), "None None");
    Ok(())
}
