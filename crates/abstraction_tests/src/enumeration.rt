// Each abstraction against all queues of at most five events, over one, two and three events. That many show every
// removal and every answer of allows here, with up to one layer.
ghost use Rattle.std.specs.Prelude.{◌<◌};

use abstraction::QueueAbstraction;
use abstraction::removals::each_removal;
use blank_abstraction::BlankAbstraction;
use keep_first::KeepFirst;
use list_abstraction::ListAbstraction;
use model::queue::Front;
use set_abstraction::SetAbstraction;
use std::process::Abort;

// A queue is a number in base 4: the front is the lowest digit, and a digit is an event + 1.
const QUEUES: usize = 1024;

const LONGEST: u32 = 5;
// more than the removals of any code here
const REMOVALS: u64 = 12;

// The code of each queue, by its number, and nothing for what is no queue over the events.
type Codes = [Option<u64>; QUEUES];

// What stands at place i of a queue: an event + 1, or 0 behind its end. A number, since the code of a list is made of it.
fn digit(queue: usize, i: u32) -> usize
    requires { i < 32 }
    ensures { result < 4 }
{
    (queue >> (2 * i)) % 4
}

fn is_queue(m: u8, queue: usize) -> bool {
    let mut ended = false;
    for i in 0..LONGEST {
        let digit = digit(queue, i);
        if digit > usize::from(m) || (ended && digit != 0) {
            return false;
        }
        ended = digit == 0;
    }
    true
}

fn mask_of(queue: usize) -> u8 {
    let mut mask = 0;
    for i in 0..LONGEST {
        let digit = digit(queue, i);
        if digit != 0 {
            mask |= 1 << (digit - 1);
        }
    }
    mask
}

fn list_of(queue: usize) -> u64 {
    let mut list: u64 = 0;
    let mut place: u64 = 1;
    let mut seen = [true, false, false, false];
    for i in 0..LONGEST {
        let digit = digit(queue, i);
        if !seen[digit] {
            seen[digit] = true;
            list = list.wrapping_add(place.wrapping_mul(digit as u64));
            place = place.wrapping_mul(16);
        }
    }
    list
}

fn codes_of<C: Fn(usize) -> u64>(m: u8, code: C) -> Codes
    requires { C.IsAlwaysCallable code }
{
    let mut codes = [None; QUEUES];
    for (queue, place) in codes.iter_mut().enumerate() {
        if is_queue(m, queue) {
            *place = Some(code(queue));
        }
    }
    codes
}

// The same under one layer.
fn kept(below: &Codes) -> Codes {
    let mut codes = *below;
    for (queue, place) in codes.iter_mut().enumerate() {
        if queue != 0 && place.is_some() {
            *place = below[queue / 4].map(|rest| {
                rest.wrapping_mul(16).wrapping_add((queue % 4) as u64)
            });
        }
    }
    codes
}

fn begins(front: Front, queue: usize) -> bool {
    match front {
        Front::Any => true,
        Front::Empty => queue == 0,
        Front::Event(e) => queue % 4 == usize::from(e) + 1,
    }
}

fn allowed(codes: &Codes, c: u64, front: Front, mask: u8) -> bool {
    codes.iter().enumerate().any(|(queue, code)| {
        *code == Some(c) && begins(front, queue) && mask & mask_of(queue) == mask
    })
}

fn removes(codes: &Codes, c: u64, e: u8, d: u64) -> bool {
    codes.iter().enumerate().any(|(queue, code)| {
        *code == Some(c) && begins(Front::Event(e), queue) && codes[queue / 4] == Some(d)
    })
}

fn check_allows<A: QueueAbstraction>(rt: &impl Abort, a: &A, m: u8, c: u64, codes: &Codes) {
    for mask in 0..16 {
        assert_eq!(rt;
            a.allows(m, c, Front::Any, mask),
            allowed(codes, c, Front::Any, mask)
        );
        assert_eq!(rt;
            a.allows(m, c, Front::Empty, mask),
            allowed(codes, c, Front::Empty, mask)
        );
        for e in 0..4 {
            assert_eq!(rt;
                a.allows(m, c, Front::Event(e), mask),
                allowed(codes, c, Front::Event(e), mask)
            );
        }
    }
}

// No removal is wrong, and each that some queue shows stands there once.
fn check_removals<A: QueueAbstraction>(rt: &impl Abort, a: &A, m: u8, c: u64, codes: &Codes) {
    for (k, (e, d)) in each_removal(a, m, c).enumerate() {
        assert!(rt; removes(codes, c, e, d));
        assert!(rt;
            !each_removal(a, m, c)
                .take(k)
                .any(|earlier| earlier == (e, d))
        );
    }
    let number = each_removal(a, m, c).count() as u64;
    assert!(rt; number <= REMOVALS);
    for k in number..REMOVALS + 1 {
        assert!(rt; a.removal(m, c, k) == None);
    }
    for (queue, code) in codes.iter().enumerate().skip(1) {
        if *code == Some(c) {
            let e = (queue % 4).saturating_sub(1) as u8;
            assert!(rt; codes[queue / 4].is_some_and(|d| abstraction::has_removal(a, m, c, e, d)));
        }
    }
}

fn check_append<A: QueueAbstraction>(rt: &impl Abort, a: &A, m: u8, codes: &Codes) {
    let mut back = 1;
    for (queue, code) in codes.iter().enumerate().take(QUEUES / 4) {
        if queue == back {
            back = back.wrapping_mul(4);
        }
        if let Some(c) = *code {
            for e in 0..m {
                let longer = queue.wrapping_add(back.wrapping_mul(usize::from(e) + 1));
                assert!(rt; longer < QUEUES);
                assert!(rt; codes[longer].is_some());
                assert!(rt; a.append(m, c, e) == codes[longer]);
            }
        }
    }
}

// The abstraction answers as the enumeration does, for every code below the limit.
fn compare<A: QueueAbstraction>(rt: &impl Abort, a: &A, m: u8, codes: &Codes, limit: u64) {
    assert!(rt; codes[0] == Some(a.empty()));
    check_append(rt, a, m, codes);
    for c in 0..limit {
        let good = allowed(codes, c, Front::Any, 0);
        assert_eq!(rt; a.good(m, c), good);
        assert_eq!(rt; a.append(m, c, 0).is_some(), good);
        assert!(rt; a.append(m, c, m) == None);
        if good {
            check_allows(rt, a, m, c, codes);
        }
        check_removals(rt, a, m, c, codes);
    }
}

#[test]
fn list(rt: HostRuntime) {
    for m in 1..4 {
        let codes = codes_of(m, list_of);
        compare(&rt, &ListAbstraction, m, &codes, 0x1000);
        let one = KeepFirst::over(ListAbstraction);
        compare(&rt, &one, m, &kept(&codes), 0x4000);
    }
}

#[test]
fn set(rt: HostRuntime) {
    for m in 1..4 {
        let codes = codes_of(m, |queue| u64::from(mask_of(queue)));
        compare(&rt, &SetAbstraction, m, &codes, 0x200);
        let one = KeepFirst::over(SetAbstraction);
        compare(&rt, &one, m, &kept(&codes), 0x400);
    }
}

#[test]
fn blank(rt: HostRuntime) {
    for m in 1..4 {
        let codes = codes_of(m, |_| 0);
        compare(&rt, &BlankAbstraction, m, &codes, 0x10);
        let one = KeepFirst::over(BlankAbstraction);
        compare(&rt, &one, m, &kept(&codes), 0x100);
    }
}

// With at most two events the queues are long enough for two layers.
#[test]
fn two_layers(rt: HostRuntime) {
    for m in 1..3 {
        let codes = kept(&kept(&codes_of(m, list_of)));
        let two = KeepFirst::over(KeepFirst::over(ListAbstraction));
        compare(&rt, &two, m, &codes, 0x4000);
    }
}
