//! The pagers on a short string.
use crate::dpmin::DpminPager;
use crate::fifo::FifoPager;
use crate::ranked::RankingPager;
use pager::plans::plan;
use pager::runs::run;
use paging::frames::FrameCount;
use paging::string::References;
use ranking::next_reference::NextReference;
use std::test::Fail;

const STRING: [u8; 12] = [0, 1, 2, 3, 0, 1, 4, 0, 1, 2, 3, 4];

fn frames(count: u32) -> Result<FrameCount, Fail> {
    FrameCount::new(count).map_err(|_| Fail::new("no frame count"))
}

#[test]
fn fifo_faults(rt: HostRuntime) -> Result<(), Fail> {
    let mut three = FifoPager::new(frames(3)?);
    assert_eq!(rt; run(&mut three, &References::new(&STRING)), (9, 9));
    let mut four = FifoPager::new(frames(4)?);
    assert_eq!(rt; run(&mut four, &References::new(&STRING)), (10, 10));
    Ok(())
}

#[test]
fn dpmin_figures(rt: HostRuntime) -> Result<(), Fail> {
    let mut pager = DpminPager::new(frames(3)?);
    assert_eq!(rt; run(&mut pager, &References::new(&STRING)), (4, 7));
    Ok(())
}

#[test]
fn min_figures(rt: HostRuntime) -> Result<(), Fail> {
    let mut pager = RankingPager::new(NextReference::new(), frames(3)?);
    assert_eq!(rt; run(&mut pager, &References::new(&STRING)), (7, 7));
    Ok(())
}

/// A move as a word, by the numbers of the format.
// Numbers, and not the code's own enum, since the test is of the format.
fn word(place: u32, kind: u32, code: u32) -> u32 {
    place << 19 | kind << 18 | code << 10
}

#[test]
fn dpmin_plan(rt: HostRuntime) -> Result<(), Fail> {
    let mut pager = DpminPager::new(frames(3)?);
    let mut out = [1; 6144];
    let string = References::new(&STRING);
    let count = plan(&mut pager, &string, &mut out);
    assert_eq!(rt; count, 11);
    assert_eq!(rt;
        [out[0], out[1], out[2]],
        [word(1, 1, 0), word(1, 1, 1), word(1, 1, 2)]
    );
    assert_eq!(rt; [out[3], out[4]], [word(4, 0, 2), word(4, 1, 3)]);
    assert_eq!(rt; [out[5], out[6]], [word(7, 0, 3), word(7, 1, 4)]);
    assert_eq!(rt; [out[7], out[8]], [word(10, 0, 0), word(10, 0, 1)]);
    assert_eq!(rt; [out[9], out[10]], [word(10, 1, 2), word(10, 1, 3)]);
    assert_eq!(rt; out[11], 1);
    Ok(())
}
