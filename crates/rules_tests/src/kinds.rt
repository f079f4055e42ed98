// Labels: their order, their joins and their texts.
use labels::{Growers, Label, Level, NotALevel, Pair, same};
use std::test::Fail;

type Both = Pair<Level, Growers>;

fn both(left: Level, mask: u16) -> Both {
    Pair {
        left,
        right: Growers { mask },
    }
}

#[test]
fn levels_are_ordered_by_number(rt: HostRuntime) {
    assert!(rt; Level::L2.flows_to(Level::L5));
    assert!(rt; !Level::L5.flows_to(Level::L2));
    assert!(rt; same(Level::L2.join(Level::L5), Level::L5));
    assert!(rt; same(Level::L7.join(Level::L0), Level::L7));
}

#[test]
fn growers_may_be_incomparable(rt: HostRuntime) {
    let first = Growers { mask: 0x0003 };
    let second = Growers { mask: 0x0004 };
    assert!(rt; !first.flows_to(second));
    assert!(rt; !second.flows_to(first));
    assert!(rt; first.join(second).mask == 0x0007);
    assert!(rt; Growers::bottom().flows_to(second));
}

#[test]
fn pairs_go_part_by_part(rt: HostRuntime) {
    let low = both(Level::L1, 0x0001);
    let one_higher = both(Level::L2, 0x0001);
    let other_higher = both(Level::L0, 0x0003);
    assert!(rt; low.flows_to(one_higher));
    assert!(rt; !one_higher.flows_to(low));
    assert!(rt; !one_higher.flows_to(other_higher));
    assert!(rt; !other_higher.flows_to(one_higher));
    assert!(rt; same(one_higher.join(other_higher), both(Level::L2, 0x0003)));
}

#[test]
fn pairs_of_pairs_are_labels(rt: HostRuntime) {
    let inner = both(Level::L3, 0x8000);
    let outer = Pair {
        left: inner,
        right: Level::L1,
    };
    assert!(rt; Pair::<Both, Level>::bottom().flows_to(outer));
    assert!(rt;
        !outer.flows_to(Pair {
            left: inner,
            right: Level::L0,
        })
    );
}

#[test]
fn texts_are_read_off_the_front(rt: HostRuntime) -> Result<(), Fail> {
    let (label, rest) = Both::read(b"500ff7").ok_or("no label was read")?;
    assert_eq!(rt; rest, b"7".as_slice(), "five bytes were read");
    assert!(rt; same(label, both(Level::L5, 0x00ff)));
    assert!(rt; Both::read(b"500f").is_none());
    assert!(rt; Both::read(b"500FF").is_none());
    assert!(rt; Level::read(b"8").is_none());
    assert!(rt; Level::read(b"").is_none());
    Ok(())
}

#[test]
fn texts_are_written_in_full(rt: HostRuntime) -> Result<(), Fail> {
    let text = both(Level::L5, 0x0a0f).to_string(rt.alloc())?;
    assert_eq!(rt; text.as_str(), "50a0f");
    Ok(())
}

#[test]
fn digits_are_levels(rt: HostRuntime) {
    assert_eq!(rt; Level::try_from(b'7'), Ok(Level::L7));
    assert_eq!(rt; Level::try_from(b'8'), Err(NotALevel(b'8')));
}
