//! Orders of numbers along arcs, and cycles.

use crate::programs::{expect_list, expect_same};
use graph_algorithms::{Arc, Order, are_numbered, least_first, sort};
use scale_base::NoMemory;
use std::alloc::Global;
use std::process::Abort;
use std::test::Fail;

fn arc(from: usize, to: usize) -> Arc {
    Arc { from, to }
}

/// Sorts, if the arcs are numbered.
fn order_of(alloc: Global, count: usize, arcs: &[Arc]) -> Result<Option<Order>, NoMemory> {
    if count >= 1 << 32 || arcs.len() >= 1 << 32 || !are_numbered(count, arcs) {
        return Ok(None);
    }
    Ok(Some(sort(alloc, count, arcs)?))
}

/// The place of a number.
fn place(numbers: &[usize], number: usize) -> Option<usize> {
    numbers.iter().position(|x| *x == number)
}

fn has_arc(arcs: &[Arc], from: usize, to: usize) -> bool {
    arcs.iter().any(|arc| arc.from == from && arc.to == to)
}

/// Each number is there, and behind those to which its arcs lead.
fn expect_sorted(rt: &impl Abort, name: &str, count: usize, arcs: &[Arc], order: &[usize]) {
    assert_eq!(rt; order.len(), count, "{name}");
    for number in 0..count {
        assert!(rt; place(order, number).is_some(), "{name}: {number}");
    }
    for arc in arcs {
        assert!(rt; place(order, arc.to) < place(order, arc.from), "{name}");
    }
}

/// Each number of a cycle has an arc to the next one.
fn expect_cycle(rt: &impl Abort, name: &str, arcs: &[Arc], cycle: &[usize]) {
    let nexts = cycle.iter().skip(1).chain(cycle.first());
    for (from, to) in cycle.iter().zip(nexts) {
        assert!(rt; has_arc(arcs, *from, *to), "{name}: {from} to {to}");
    }
}

/// How many numbers there are, the arcs, and how many numbers are in a cycle.
static CASES: [(&str, usize, &[(usize, usize)], usize); 5] = [
    (
        "puts callees first",
        5,
        &[(0, 1), (0, 2), (1, 3), (2, 3), (0, 3), (0, 3), (2, 1)],
        0,
    ),
    ("orders no numbers", 0, &[], 0),
    ("orders numbers without arcs", 3, &[], 0),
    (
        "finds a number with an arc to itself",
        4,
        &[(0, 1), (1, 2), (2, 2)],
        1,
    ),
    (
        "leaves out what only leads to a cycle",
        5,
        &[(0, 1), (1, 2), (2, 3), (3, 1), (3, 4)],
        3,
    ),
];

fn arcs_of(alloc: Global, ends: &[(usize, usize)]) -> Result<Vec<Arc>, Fail> {
    let mut arcs = Vec::new(alloc);
    for (from, to) in ends {
        arcs.push(arc(*from, *to))?;
    }
    Ok(arcs)
}

/// Some numbers, and how many of them a cycle of their arcs has: none, where there is none.
#[derive(Clone, Copy)]
struct Numbers<'a> {
    name: &'a str,
    count: usize,
    in_cycle: usize,
}

fn expect_order(rt: &impl Abort, of: Numbers<'_>, arcs: &[Arc], order: &Order) {
    let name = of.name;
    match order {
        Order::Sorted(order) => {
            assert_eq!(rt; of.in_cycle, 0, "{name}");
            expect_sorted(rt, name, of.count, arcs, order);
        }
        Order::Cycle(cycle) => {
            assert_eq!(rt; cycle.len(), of.in_cycle, "{name}");
            expect_cycle(rt, name, arcs, cycle);
        }
    }
}

fn expect_case(
    rt: &impl Abort,
    alloc: Global,
    of: Numbers<'_>,
    ends: &[(usize, usize)],
) -> Result<(), Fail> {
    let arcs = arcs_of(alloc, ends)?;
    let order = order_of(alloc, of.count, &arcs)?.ok_or("the arcs are numbered")?;
    expect_order(rt, of, &arcs, &order);
    Ok(())
}

#[test]
fn puts_callees_first_or_finds_a_cycle(rt: HostRuntime) -> Result<(), Fail> {
    for (name, count, ends, in_cycle) in &CASES {
        let of = Numbers {
            name,
            count: *count,
            in_cycle: *in_cycle,
        };
        expect_case(&rt, rt.alloc(), of, ends)?;
    }
    Ok(())
}

/// Arcs from each number to the next one.
fn chain(alloc: Global, count: usize) -> Result<Vec<Arc>, Fail> {
    let mut arcs = Vec::new(alloc);
    for k in 1..count {
        arcs.push(arc(k - 1, k))?;
    }
    Ok(arcs)
}

#[test]
fn orders_a_long_chain(rt: HostRuntime) -> Result<(), Fail> {
    let arcs = chain(rt.alloc(), 2000)?;
    let Some(Order::Sorted(order)) = order_of(rt.alloc(), 2000, &arcs)? else {
        return Err("a cycle".into());
    };
    let found = (place(&order, 1999), place(&order, 0));
    expect_same(&rt, 0, found, (Some(0), Some(1999)));
    Ok(())
}

#[test]
fn finds_a_long_cycle(rt: HostRuntime) -> Result<(), Fail> {
    let mut arcs = chain(rt.alloc(), 2000)?;
    arcs.push(arc(1999, 0))?;
    let Some(Order::Cycle(cycle)) = order_of(rt.alloc(), 2000, &arcs)? else {
        return Err("an order".into());
    };
    expect_same(&rt, 0, cycle.len(), 2000);
    Ok(())
}

#[test]
fn turns_a_cycle_to_its_least_number(rt: HostRuntime) -> Result<(), Fail> {
    let turned = least_first(vec![in rt.alloc(); 20, 12, 16]?);
    expect_list(&rt, 0, &turned, &[12, 16, 20]);
    let one = least_first(vec![in rt.alloc(); 8]?);
    expect_list(&rt, 1, &one, &[8]);
    Ok(())
}
