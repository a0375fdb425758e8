//! Listings of short recordings.
use crate::{bands_listing, listing};
use paging::refusal::Refusal;
use std::process::Abort;

const EXAMPLE: [u8; 21] = [
    0x10, 0x00, 0x0C, 0x00, 0x10, 0x02, 0x00, 0x30, 0x04, 0x00, 0x10, 0x02, 0x00, 0x50, 0x01, 0x00,
    0x20, 0x03, 0x00, 0x40, 0x05,
];

// The listing of the recording is that text, and the memory behind it is as it was.
fn lists(rt: &impl Abort, recording: &[u8], text: &[u8]) {
    let mut out = [9u8; 256];
    let size = text.len();
    assert!(rt; size < 256);
    assert_eq!(rt; listing(recording, &mut out), Ok(size));
    assert!(rt; &out[..size] == text);
    assert!(rt; out[size] == 9);
}

#[test]
fn lists_the_example(rt: HostRuntime) {
    lists(
        &rt,
        &EXAMPLE,
        b"frames,lru,min,dpmin,pulls\n1,12,12,12,12\n2,12,9,6,11\n3,10,7,4,7\n4,8,6,3,6\n5,5,5,1,5\n",
    );
}

#[test]
fn lists_tasks_with_pages(rt: HostRuntime) {
    // task 1 page 2, task 2 page 2, task 1 page 2
    lists(
        &rt,
        &[0x14, 0x00, 0x03, 0x10, 0x02, 0x20, 0x02, 0x10, 0x02],
        b"frames,lru,min,dpmin,pulls\n1,3,3,3,3\n2,2,2,1,2\n",
    );
}

#[test]
fn lists_the_empty_recording(rt: HostRuntime) {
    lists(
        &rt,
        &[0x10, 0, 0],
        b"frames,lru,min,dpmin,pulls\n1,0,0,0,0\n",
    );
}

#[test]
fn lists_refusals(rt: HostRuntime) {
    lists(&rt, &[0x20, 0, 0], b"refused,2,bytes,0\n");
    lists(&rt, &[], b"refused,1,bytes,0\n");
    lists(&rt, &[0x10, 0, 1, 0, 0x1F], b"refused,5,bytes,4\n");
}

#[test]
fn refuses_short_memory(rt: HostRuntime) {
    let mut out = [9u8; 17];
    let answer = listing(&[0x20, 0, 0], &mut out);
    assert_eq!(rt; answer.map_err(Refusal::number), Err(17));
    assert!(rt; out == [9u8; 17]);
}

#[test]
fn counts_for_c(rt: HostRuntime) {
    let mut out = [9u8; 18];
    assert!(rt; bands_listing(&[0x20, 0, 0], &mut out) == 18);
    assert!(rt; bands_listing(&EXAMPLE, &mut out) == 0);
    assert!(rt; &out == b"refused,2,bytes,0\n");
}
