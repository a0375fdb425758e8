//! LRU and MIN on a short string.
use crate::edge::edge_of;
use crate::last_reference::LastReference;
use crate::next_reference::NextReference;
use crate::pass::pass;
use paging::string::References;

const STRING: [u8; 12] = [0, 1, 2, 3, 0, 1, 4, 0, 1, 2, 3, 4];

fn string() -> References<'static> {
    References::new(&STRING)
}

#[test]
fn lru_faults(rt: HostRuntime) {
    let mut ranking = LastReference::new();
    let row = pass(&mut ranking, &string());
    assert_eq!(rt;
        [row[0], row[1], row[2], row[3], row[4]],
        [12, 12, 10, 8, 5]
    );
    assert_eq!(rt; row[63], 5);
}

#[test]
fn min_faults(rt: HostRuntime) {
    let mut ranking = NextReference::new();
    let row = pass(&mut ranking, &string());
    assert_eq!(rt; [row[0], row[1], row[2], row[3], row[4]], [12, 9, 7, 6, 5]);
    assert_eq!(rt; row[63], 5);
}

#[test]
fn lru_edges(rt: HostRuntime) {
    assert_eq!(rt; edge_of(LastReference::new(), &string(), 10), Some(3));
    assert_eq!(rt; edge_of(LastReference::new(), &string(), 9), Some(4));
    assert_eq!(rt; edge_of(LastReference::new(), &string(), 8), Some(4));
    assert_eq!(rt; edge_of(LastReference::new(), &string(), 4), None);
}
