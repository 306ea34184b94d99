// The least and the greatest of what the calls take: numbers of events, widths, bits above the width.
use abstraction::QueueAbstraction;
use blank_abstraction::BlankAbstraction;
use keep_first::KeepFirst;
use list_abstraction::ListAbstraction;
use model::queue::Front;
use set_abstraction::SetAbstraction;
use std::process::Abort;

type ThreeKept<A> = KeepFirst<KeepFirst<KeepFirst<A>>>;

type SevenKept = KeepFirst<ThreeKept<ThreeKept<ListAbstraction>>>;

fn three_kept<A>(below: A) -> ThreeKept<A> {
    KeepFirst::over(KeepFirst::over(KeepFirst::over(below)))
}

fn seven_kept() -> SevenKept {
    KeepFirst::over(three_kept(three_kept(ListAbstraction)))
}

// A code that is not good gets no answer from any call.
fn refuses<A: QueueAbstraction>(rt: &impl Abort, a: &A, m: u8, c: u64) {
    assert!(rt; !a.good(m, c));
    for e in 0..10 {
        assert!(rt; a.append(m, c, e) == None);
        assert!(rt; !a.allows(m, c, Front::Event(e), 0));
        assert!(rt; a.removal(m, c, u64::from(e)) == None);
    }
    assert!(rt; !a.allows(m, c, Front::Any, 0));
    assert!(rt; !a.allows(m, c, Front::Empty, 0));
}

// The empty code is good for 1 to 8 events, and nothing is for other numbers.
fn takes_one_to_eight<A: QueueAbstraction>(rt: &impl Abort, a: &A) {
    for m in 1..9 {
        assert!(rt; a.good(m, a.empty()));
        assert!(rt; a.allows(m, a.empty(), Front::Empty, 0));
        assert!(rt; a.append(m, a.empty(), m - 1).is_some());
        assert!(rt; a.append(m, a.empty(), m) == None);
        assert!(rt; !a.allows(m, a.empty(), Front::Event(m), 0));
    }
    for c in 0..64 {
        refuses(rt, a, 0, c);
        refuses(rt, a, 9, c);
        refuses(rt, a, 255, c);
    }
}

#[test]
fn numbers_of_events(rt: HostRuntime) {
    takes_one_to_eight(&rt, &ListAbstraction);
    takes_one_to_eight(&rt, &SetAbstraction);
    takes_one_to_eight(&rt, &BlankAbstraction);
    takes_one_to_eight(&rt, &KeepFirst::over(ListAbstraction));
    takes_one_to_eight(&rt, &seven_kept());
}

#[test]
fn eight_events(rt: HostRuntime) {
    let list = ListAbstraction;
    assert!(rt; list.good(8, 0x8765_4321));
    assert!(rt; list.append(8, 0x8765_4321, 7) == Some(0x8765_4321));
    assert!(rt; list.append(8, 0x765_4321, 7) == Some(0x8765_4321));
    assert!(rt; list.allows(8, 0x8765_4321, Front::Event(0), 255));
    assert!(rt; list.removal(8, 0x8765_4321, 0) == Some((0, 0x876_5432)));
    assert!(rt; list.removal(8, 0x8765_4321, 8) == Some((0, 0x1876_5432)));
    assert!(rt; list.removal(8, 0x8765_4321, 9) == None);
    assert!(rt; SetAbstraction.removal(8, 255, 14) == Some((7, 127)));
    assert!(rt; SetAbstraction.removal(8, 255, 15) == Some((7, 255)));
    assert!(rt; SetAbstraction.removal(8, 255, 16) == None);
    assert!(rt; BlankAbstraction.removal(8, 0, 7) == Some((7, 0)));
    assert!(rt; BlankAbstraction.removal(8, 0, 8) == None);
}

#[test]
fn bits_above_the_width(rt: HostRuntime) {
    for c in [1 << 32, 0x1_0000_0001, 0x1_8765_4321, u64::MAX] {
        refuses(&rt, &ListAbstraction, 8, c);
    }
    for c in [256, 1 << 63, u64::MAX] {
        refuses(&rt, &SetAbstraction, 8, c);
    }
    for c in [1, 1 << 63, u64::MAX] {
        refuses(&rt, &BlankAbstraction, 8, c);
    }
    for c in [16, 17, 1 << 60, u64::MAX] {
        refuses(&rt, &KeepFirst::over(BlankAbstraction), 8, c);
    }
}

// Seven layers over the list have 60 bits, eight have 64 and no good code.
#[test]
fn widest(rt: HostRuntime) {
    let seven = seven_kept();
    let full = 0x876_5432_1111_1111;
    assert_eq!(rt; seven.width(), 60);
    assert!(rt; seven.good(8, full));
    assert!(rt; seven.append(8, 0x111_1111, 3) == Some(0x4111_1111));
    assert!(rt; seven.removal(8, full, 8) == Some((0, 0x187_6543_2111_1111)));
    refuses(&rt, &seven, 8, full + (1 << 60));
    let eight = KeepFirst::over(seven);
    assert_eq!(rt; eight.width(), 64);
    for c in [0, 1, 0x1111_1111, u64::MAX] {
        refuses(&rt, &eight, 8, c);
    }
}
