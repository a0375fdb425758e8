//! Words and bytes in memory that has room for more.
use crate::Output;

#[test]
fn writes_words(rt: HostRuntime) {
    let mut memory = [9u32; 4];
    let mut output = Output::over(&mut memory);
    output.push(1);
    output.extend_from_slice(&[2, 3]);
    assert_eq!(rt; output.len(), 3);
    assert!(rt; memory == [1, 2, 3, 9]);
}

#[test]
fn writes_nothing(rt: HostRuntime) {
    let mut memory = [9u8; 2];
    let mut output = Output::over(&mut memory);
    output.extend_from_slice(&[]);
    assert_eq!(rt; output.len(), 0);
    assert!(rt; memory == [9, 9]);
}
