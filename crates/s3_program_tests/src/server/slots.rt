//! How many connections may be awaited and held, when workers lack a slot, and that a failure is noted.
use crate::checks::check;
use s3_server::Slots;
use std::process::Abort;
use std::test::*;

// What a worker does: it takes the slot of a connection, gives one back, wants one that another worker may give, or wants none
// any more; it offers one, or offers none any more.
#[derive(Clone, Copy)]
enum Deed {
    Take,
    Give,
    Want,
    WantNone,
    Offer,
    OfferNone,
}

// What is done in turn where two connections may be held, whether it could be, and whether more workers want a slot then than
// there are free and offered ones.
const DEEDS: [(Deed, bool, bool); 20] = [
    (Deed::Take, true, false),
    (Deed::Take, true, false),
    (Deed::Take, false, false),
    (Deed::Want, true, true),
    (Deed::Want, true, true),
    (Deed::Give, true, true),
    (Deed::Give, true, false),
    (Deed::Take, true, true),
    (Deed::WantNone, true, false),
    (Deed::Take, true, true),
    (Deed::WantNone, true, false),
    (Deed::Take, false, false),
    (Deed::Offer, false, false),
    (Deed::Want, true, true),
    (Deed::Offer, true, false),
    (Deed::Offer, false, false),
    (Deed::Want, true, true),
    (Deed::OfferNone, true, true),
    (Deed::WantNone, true, true),
    (Deed::Offer, true, false),
];

// Does it, and answers whether it could.
fn does(slots: &Slots, deed: Deed) -> bool {
    match deed {
        Deed::Take => return slots.take_slot(),
        Deed::Give => slots.give_slot(),
        Deed::Want => slots.want_slot(),
        Deed::WantNone => slots.want_no_slot(),
        Deed::Offer => return slots.offer_slot(),
        Deed::OfferNone => slots.offer_no_slot(),
    }
    true
}

#[test]
fn slots(rt: HostRuntime) {
    let slots = Slots::new(None, 2);
    for (deed, could, lacks) in DEEDS {
        let is_right = does(&slots, deed) == could && slots.lacks_slots() == lacks;
        check(&rt, is_right, "slots");
    }
}

// The most connections that come, and the numbers of the next three.
const NUMBERS: [(Option<u64>, [Option<u64>; 3]); 4] = [
    (None, [Some(1), Some(2), Some(3)]),
    (Some(3), [Some(1), Some(2), Some(3)]),
    (Some(2), [Some(1), Some(2), None]),
    (Some(1), [Some(1), None, None]),
];

#[test]
fn numbers(rt: HostRuntime) {
    for (most, numbers) in NUMBERS {
        let slots = Slots::new(most, 1);
        for number in numbers {
            check(&rt, slots.count_one() == number, "numbers");
        }
    }
}

// The most connections that come, and whether three in turn are awaited.
const AWAITED: [(Option<u64>, [bool; 3]); 3] = [
    (None, [true, true, true]),
    (Some(2), [true, true, false]),
    (Some(1), [true, false, false]),
];

#[test]
fn awaited(rt: HostRuntime) {
    for (most, awaited) in AWAITED {
        let slots = Slots::new(most, 1);
        for is_awaited in awaited {
            let is_right = slots.may_await() == is_awaited && slots.await_one() == is_awaited;
            check(&rt, is_right, "awaited");
        }
        slots.await_none();
        check(
            &rt,
            slots.await_one(),
            "in the place of one that didn't come",
        );
    }
}

// How many slots are taken where three workers share them, how many of these one holds, and whether that is no more than its
// share.
const SHARES: [(usize, u64, bool); 8] = [
    (0, 0, true),
    (0, 1, false),
    (2, 0, true),
    (2, 1, false),
    (3, 1, true),
    (5, 1, true),
    (5, 2, false),
    (6, 2, true),
];

// Slots of three workers; a fourth one has ended.
fn of_three() -> Slots {
    let slots = Slots::new(None, 8);
    for _ in 0..4 {
        slots.begin_work();
    }
    slots.end_work();
    slots
}

// The same, of which so many are taken.
fn with_taken<R: Abort>(rt: &R, count: usize) -> Slots {
    let slots = of_three();
    for _ in 0..count {
        check(rt, slots.take_slot(), "take_slot");
    }
    slots
}

#[test]
fn shares(rt: HostRuntime) {
    for (taken, mine, is_within) in SHARES {
        let slots = with_taken(&rt, taken);
        check(&rt, slots.is_within_share(mine) == is_within, "shares");
    }
}

#[test]
fn failure(rt: HostRuntime) {
    let slots = Slots::new(None, 1);
    check(&rt, !slots.has_failed(), "nothing has failed");
    slots.fail();
    check(&rt, slots.has_failed(), "the keeper has failed");
}
