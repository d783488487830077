// What two programs are told, taken apart.
use crate::mailbox::{Stop, next, take};
use protocol::Word;
use std::test::Fail;

// To program 0 a window made and a key typed, and between them to program 1 an answer.
const WORDS: &[u8] = b"\x00\x02\x05\x01\x01\xff\x00\x05\x02\x41\x00\x00\x00";

#[test]
fn each_takes_its_own(rt: HostRuntime) -> Result<(), Fail> {
    let mut row = [7; 11];
    let Ok(10) = take(WORDS, 0, &mut row) else {
        return Err(Fail::new("not ten bytes"));
    };
    assert_eq!(rt;
        row.as_slice(),
        b"\x00\x02\x05\x00\x05\x02\x41\x00\x00\x00\x07".as_slice()
    );
    let Ok(Some((Word::Made { window: 5 }, 3))) = next(&row[0..10], 0) else {
        return Err(Fail::new("no window made"));
    };
    let Ok(Some((Word::Typed { window: 2, key: 65 }, 10))) = next(&row[0..10], 3) else {
        return Err(Fail::new("no key typed"));
    };
    let Ok(None) = next(&row[0..10], 10) else {
        return Err(Fail::new("no end"));
    };
    Ok(())
}

#[test]
fn a_short_row_says_what_it_needs(rt: HostRuntime) -> Result<(), Fail> {
    let mut row = [7; 9];
    let Err(Stop::Short { needs: 10 }) = take(WORDS, 0, &mut row) else {
        return Err(Fail::new("not short of ten bytes"));
    };
    assert_eq!(rt; row, [7; 9]);
    Ok(())
}

#[test]
fn a_faulty_byte_is_named(rt: HostRuntime) -> Result<(), Fail> {
    let mut row = [7; 9];
    let Err(Stop::Fault { place: 4 }) = take(b"\x00\x01\xff\x01\x09\x00", 0, &mut row) else {
        return Err(Fail::new("no fault at 4"));
    };
    assert_eq!(rt; row, [7; 9]);
    Ok(())
}
