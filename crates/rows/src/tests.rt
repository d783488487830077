// One table of events in bytes and one test of all of it, on `desktop` and on `server`; and events by chance, on both at once.
mod on_desktop;
mod on_server;
mod random;
mod table;

use on_desktop::Plain;
use on_server::Served;
use std::alloc::Global;
use std::process::Abort;
use std::test::Fail;
use table::{ROWS, Row, SIZES};

// That two rows of words are the same, byte by byte.
fn same_words(rt: &impl Abort, told: &[u8], expected: &[u8], name: &str) {
    assert_eq!(rt; told.len(), expected.len(), "{name}");
    for (byte, wanted) in told.iter().zip(expected.iter()) {
        assert_eq!(rt; *byte, *wanted, "{name}");
    }
}

fn row_on_desktop(rt: &impl Abort, heap: Global, row: &Row) -> Result<(), Fail> {
    let mut plain = Plain::new(heap, SIZES)?;
    let mut words = [0; 256];
    let used = plain.carry_all(row.call, &mut words)?;
    for (k, dot) in row.seen.iter().enumerate() {
        assert_eq!(rt; plain.dot(k), *dot, "{}", row.name);
    }
    same_words(rt, words.get(..used).unwrap_or(&[]), row.words, row.name);
    Ok(())
}

// Every row has fewer than 16 events.
fn row_on_server(rt: &impl Abort, heap: Global, row: &Row) -> Result<(), Fail> {
    let mut served = Served::start(heap, SIZES, 16)?;
    let out = served.call(row.call)?;
    assert!(rt; out.refusal.is_none(), "{}", row.name);
    assert_eq!(rt; out.read, row.call.len(), "{}", row.name);
    for (shown, dot) in served.screen().iter().zip(row.seen.iter()) {
        assert_eq!(rt; *shown, *dot, "{}", row.name);
    }
    same_words(rt, served.told(out), row.words, row.name);
    Ok(())
}

#[test]
fn rows_come_to_their_screens_and_words(rt: HostRuntime) -> Result<(), Fail> {
    for row in &ROWS {
        row_on_desktop(&rt, rt.alloc(), row)?;
    }
    Ok(())
}

#[test]
fn rows_come_to_the_same_on_the_server(rt: HostRuntime) -> Result<(), Fail> {
    for row in &ROWS {
        row_on_server(&rt, rt.alloc(), row)?;
    }
    Ok(())
}
