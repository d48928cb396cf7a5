// The order of deciding beside a look at each variable.
use std::alloc::Global;
use std::test::Fail;
use unit_propagation::activity_order::ActivityOrder;

// What is done to an order, and to which of its variables.
#[derive(Clone, Copy)]
enum Deed {
    Raise(u32),
    Decay,
    PutBack(u32),
    Take,
}

fn raise(order: &mut ActivityOrder, var: u32) {
    if var < order.vars() {
        order.raise(var);
    }
}

fn put_back(order: &mut ActivityOrder, var: u32) {
    if var < order.vars() {
        order.put_back(var);
    }
}

fn activities_of(alloc: Global, order: &ActivityOrder) -> Result<Vec<u64>, Fail> {
    let mut activities = Vec::new(alloc);
    for var in 0..order.vars() {
        activities.push(order.activity(var))?;
    }
    Ok(activities)
}

// The waiting variable that a look at each of them finds.
fn first_by_scan(order: &ActivityOrder) -> Option<u32> {
    let mut first = None;
    let mut greatest = 0;
    for var in 0..order.vars() {
        let activity = order.activity(var);
        if order.is_waiting(var) && (first.is_none() || activity > greatest) {
            first = Some(var);
            greatest = activity;
        }
    }
    first
}

// The next variable, which is the one that a look at each finds.
fn take(order: &mut ActivityOrder) -> Result<Option<u32>, Fail> {
    let expected = first_by_scan(order);
    let found = order.take_first();
    if found != expected {
        Err("another variable comes first")?
    }
    Ok(found)
}

// All variables, in the order in which they are taken.
fn take_all(alloc: Global, order: &mut ActivityOrder) -> Result<Vec<u32>, Fail> {
    let mut taken = Vec::new(alloc);
    for _ in 0..order.vars() {
        if let Some(var) = take(order)? {
            taken.push(var)?;
        }
    }
    Ok(taken)
}

fn apply(order: &mut ActivityOrder, deed: Deed) -> Result<(), Fail> {
    match deed {
        Deed::Raise(var) => raise(order, var),
        Deed::Decay => order.decay(),
        Deed::PutBack(var) => put_back(order, var),
        Deed::Take => {
            take(order)?;
        }
    }
    Ok(())
}

fn apply_all(order: &mut ActivityOrder, deeds: &[Deed]) -> Result<(), Fail> {
    for deed in deeds {
        apply(order, *deed)?;
    }
    Ok(())
}

// An order of so many variables after these deeds.
fn order_after(alloc: Global, vars: u32, deeds: &[Deed]) -> Result<ActivityOrder, Fail> {
    let mut order = ActivityOrder::new(alloc, vars)?;
    apply_all(&mut order, deeds)?;
    Ok(order)
}

// Its variables, in the order in which they are taken.
fn taken_after(alloc: Global, vars: u32, deeds: &[Deed]) -> Result<Vec<u32>, Fail> {
    let mut order = order_after(alloc, vars, deeds)?;
    take_all(alloc, &mut order)
}

#[test]
fn variables_come_by_their_activities(rt: HostRuntime) -> Result<(), Fail> {
    let deeds = [Deed::Raise(2), Deed::Decay, Deed::Raise(3), Deed::Raise(1)];
    let order = order_after(rt.alloc(), 4, &deeds)?;
    let activities = activities_of(rt.alloc(), &order)?;
    assert_eq!(rt; activities.as_slice(), [0, 2, 1, 2].as_slice());
    let taken = taken_after(rt.alloc(), 4, &deeds)?;
    assert_eq!(rt; taken.as_slice(), [1, 3, 2, 0].as_slice());
    Ok(())
}

// An order of three variables, of which none is left to be taken.
fn emptied(alloc: Global) -> Result<ActivityOrder, Fail> {
    let mut order = ActivityOrder::new(alloc, 3)?;
    take_all(alloc, &mut order)?;
    Ok(order)
}

#[test]
fn variables_wait_again_once(rt: HostRuntime) -> Result<(), Fail> {
    let mut order = emptied(rt.alloc())?;
    assert_eq!(rt; order.take_first(), None);
    apply_all(
        &mut order,
        &[Deed::PutBack(2), Deed::PutBack(0), Deed::PutBack(2)],
    )?;
    let taken = take_all(rt.alloc(), &mut order)?;
    assert_eq!(rt; taken.as_slice(), [0, 2].as_slice());
    Ok(())
}

// Deeds that the digits of a number below 1,024 choose.
fn deeds_of(turn: u32) -> [Deed; 8] {
    [
        Deed::Raise(turn % 4),
        Deed::Raise(3 + turn / 4 % 4),
        Deed::Decay,
        Deed::Take,
        Deed::Raise(turn / 16 % 4),
        Deed::Take,
        Deed::PutBack(turn / 64 % 4),
        Deed::Raise(3 + turn / 256),
    ]
}

#[test]
fn all_orders_are_those_of_a_scan(rt: HostRuntime) -> Result<(), Fail> {
    for turn in 0u32..1024 {
        taken_after(rt.alloc(), 7, &deeds_of(turn))?;
    }
    Ok(())
}

// Deeds of nine variables that differ from turn to turn.
fn deeds_in_turn(turn: u32) -> [Deed; 5] {
    [
        Deed::Raise(turn % 9),
        Deed::Raise(turn.wrapping_mul(5) % 7),
        Deed::Decay,
        Deed::PutBack(turn % 5),
        Deed::Take,
    ]
}

#[test]
fn halved_activities_are_in_order(rt: HostRuntime) -> Result<(), Fail> {
    let mut order = ActivityOrder::new(rt.alloc(), 9)?;
    for turn in 0u32..2000 {
        apply_all(&mut order, &deeds_in_turn(turn))?;
    }
    Ok(())
}

#[test]
fn a_copy_has_the_same_order(rt: HostRuntime) -> Result<(), Fail> {
    let order = order_after(rt.alloc(), 3, &[Deed::Raise(2)])?;
    let mut copy = order.copy(rt.alloc())?;
    let taken = take_all(rt.alloc(), &mut copy)?;
    assert_eq!(rt; taken.as_slice(), [2, 0, 1].as_slice());
    Ok(())
}
