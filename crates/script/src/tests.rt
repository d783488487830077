// Text to bytes and back, and what is refused.
use crate::shown::describe;
use crate::text::convert;
use std::alloc::{AllocError, Global};
use std::test::Fail;

// Every kind of event at both ends of every field, as -d writes it.
const LINES: &str = "make 0 -32768 -32768 0 0
make 63 32767 32767 65535 65535
close 0 0
close 63 255
move 0 0 -32768 -32768
move 63 255 32767 32767
raise 0 0
raise 63 255
show 0 0 0
show 63 255 1
fill 0 0 0 0 0 0 0
fill 63 255 65535 65535 65535 65535 4294967295
put 0 0 0 0
put 63 255 65535 65535 0 1 4294967295
copy 0 0 0 0 0 0 0 0
copy 63 255 65535 65535 65535 65535 65535 65535
offer 0
offer 63 0 255
point -32768 -32768
point 32767 32767
press 0
press 1
key 0
key 4294967295
paste
";

#[test]
fn text_comes_back(rt: HostRuntime) -> Result<(), Fail> {
    let Ok(bytes) = convert(rt.alloc(), LINES) else {
        return Err(Fail::new("a line is refused"));
    };
    let back = describe(rt.alloc(), bytes.as_slice())?;
    assert!(rt; back.fault.is_none());
    assert!(rt; back.text.as_str() == LINES);
    Ok(())
}

#[test]
fn forms_are_free(rt: HostRuntime) -> Result<(), Fail> {
    let Ok(bytes) = convert(
        rt.alloc(),
        "# none\n\n \tpoint  0x7FFF -0x8000#here\r\n key 0xa",
    ) else {
        return Err(Fail::new("a line is refused"));
    };
    assert_eq!(rt;
        bytes.as_slice(),
        b"\x09\xff\x7f\x00\x80\x0b\x0a\x00\x00\x00".as_slice()
    );
    Ok(())
}

// What is said of a text that is refused.
fn refusal_of(heap: Global, text: &str) -> Result<String, AllocError> {
    let Err(refusal) = convert(heap, text) else {
        return String::from_str(heap, "it is not refused");
    };
    format!(in heap; "{refusal}")
}

#[test]
fn lines_are_refused(rt: HostRuntime) -> Result<(), Fail> {
    let cases = [
        (
            "paste\n\nshow 0 0",
            "line 3: show wants 3 fields: program window mark",
        ),
        (
            "show 0 0 1 1",
            "line 1: show wants 3 fields: program window mark",
        ),
        (
            "put 0 0 0",
            "line 1: put wants 4 fields or more: program window x y colours..",
        ),
        ("paste 1", "line 1: paste wants no fields"),
        ("close 0 x", "line 1: 'x' is no number from 0 to 255"),
        ("close 64 0", "line 1: '64' is no number from 0 to 63"),
        ("press 2", "line 1: '2' is no number from 0 to 1"),
        (
            "point -32769 0",
            "line 1: '-32769' is no number from -32768 to 32767",
        ),
        (
            "point 0 32768",
            "line 1: '32768' is no number from -32768 to 32767",
        ),
        (
            "key 4294967296",
            "line 1: '4294967296' is no number from 0 to 4294967295",
        ),
        ("key +1", "line 1: '+1' is no number from 0 to 4294967295"),
        (
            "make 0 0 0 65536 1",
            "line 1: '65536' is no number from 0 to 65535",
        ),
    ];
    for (text, message) in cases {
        let said = refusal_of(rt.alloc(), text)?;
        assert!(rt; said.as_str() == message, "{}", text);
    }
    Ok(())
}

#[test]
fn bytes_are_refused(rt: HostRuntime) -> Result<(), Fail> {
    let said = describe(rt.alloc(), b"\x0c\x0a\x02")?;
    assert!(rt; said.text.as_str() == "paste\n");
    match said.fault {
        Some(fault) => {
            assert_eq!(rt; fault.place, 2);
            Ok(())
        },
        None => Err(Fail::new("no fault")),
    }
}
