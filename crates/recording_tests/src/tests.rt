//! Recordings loaded and stored. Refusals are compared by the numbers that callers see.
use names::list::NameList;
use names::name::{Page, TaskPage};
use paging::refusal::Refusal;
use paging::string::References;
use recording::decode::decode;
use recording::encode::encode;
use recording::fault::{Layer, LoadFault};

// What a fault carries, with the refusal's number.
fn numbered(fault: LoadFault) -> (u8, Layer, usize) {
    (fault.refusal.number(), fault.layer, fault.place)
}

// What decoding answers over so many places of bare pages, at most four.
fn pages(bytes: &[u8], places: usize) -> Result<usize, (u8, Layer, usize)> {
    let mut memory = [Page { page: 0 }; 4];
    let mut codes = [0; 4096];
    let mut list = NameList::over(&mut memory[0..places.min(4)]);
    decode(bytes, &mut list, &mut codes).map_err(numbered)
}

#[test]
fn refusals(rt: HostRuntime) {
    let answers = [
        pages(b"\x10\x00", 4),
        pages(b"\x20\x00\x00", 4),
        pages(b"\x10\x10\x01", 4),
        pages(b"\x10\x00\x01\x00\x10\x00", 4),
        pages(b"\x10\x00\x01\x00\x11", 4),
        pages(b"\x10\x00\x02\x00\x10\x02", 1),
    ];
    assert_eq!(rt;
        answers,
        [
            Err((1, Layer::Bytes, 2)),
            Err((2, Layer::Bytes, 0)),
            Err((3, Layer::Bytes, 1)),
            Err((4, Layer::Bytes, 5)),
            Err((5, Layer::Bytes, 4)),
            Err((6, Layer::Names, 2)),
        ]
    );
}

#[test]
fn loaded_and_stored(rt: HostRuntime) {
    let bytes =
        b"\x10\x00\x0C\x00\x10\x02\x00\x30\x04\x00\x10\x02\x00\x50\x01\x00\x20\x03\x00\x40\x05";
    let mut memory = [Page { page: 9 }; 6];
    let mut codes = [0; 4096];
    let mut list = NameList::over(&mut memory);
    assert_eq!(rt; decode(bytes, &mut list, &mut codes), Ok(12));
    assert_eq!(rt; list.len(), 5);
    assert_eq!(rt;
        &codes[0..12],
        b"\x00\x01\x02\x03\x00\x01\x04\x00\x01\x02\x03\x04".as_slice()
    );
    let mut out = [7; 22];
    assert_eq!(rt;
        encode(&list, &References::new(&codes[0..12]), &mut out),
        Ok(21)
    );
    assert_eq!(rt; &out[0..21], bytes.as_slice());
    assert_eq!(rt; out[21], 7);
}

#[test]
fn tasks(rt: HostRuntime) {
    let bytes = b"\x14\x00\x03\xF0\x01\x10\x01\xF0\x01";
    let mut memory = [TaskPage { task: 0, page: 0 }; 2];
    let mut codes = [0; 4096];
    let mut list = NameList::over(&mut memory);
    assert_eq!(rt; decode(bytes, &mut list, &mut codes), Ok(3));
    assert_eq!(rt; &codes[0..3], b"\x00\x01\x00".as_slice());
    assert_eq!(rt; (memory[0].task, memory[0].page), (15, 1));
    assert_eq!(rt; (memory[1].task, memory[1].page), (1, 1));
}

#[test]
fn names_are_added_once(rt: HostRuntime) {
    let mut memory = [Page { page: 0 }; 2];
    let mut list = NameList::over(&mut memory);
    assert_eq!(rt; list.look_up(Page { page: 7 }), Ok(0));
    assert_eq!(rt; list.look_up(Page { page: 9 }), Ok(1));
    assert_eq!(rt; list.look_up(Page { page: 4103 }), Ok(0));
    assert_eq!(rt; list.look_up(Page { page: 9 }), Ok(1));
    let full = list.look_up(Page { page: 8 }).map_err(Refusal::number);
    assert_eq!(rt; full, Err(6));
    assert_eq!(rt; list.len(), 2);
}
