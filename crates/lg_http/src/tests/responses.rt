//! The bytes of responses.
use crate::{respond, respond_error};
use lg_base::Text;
use lg_io::{FaultList, MemorySink, NoFaults};
use lg_json::Out;
use std::test::Fail;

#[test]
fn responses_are_written_byte_by_byte(rt: HostRuntime) -> Result<(), Fail> {
    let mut sink = MemorySink::new(rt.alloc(), 1, NoFaults);
    respond(&mut sink, 200, &Out::Truth(true), false)?;
    assert_eq!(&rt;
        sink.bytes(),
        b"HTTP/1.1 200 OK\r\nContent-Type: application/json\r\nContent-Length: 17\r\n\r\n{\"response\":true}".as_slice()
    );
    sink.restart();
    respond(&mut sink, 200, &Out::Null, true)?;
    assert_eq!(&rt;
        sink.bytes(),
        b"HTTP/1.1 200 OK\r\nContent-Type: application/json\r\nContent-Length: 17\r\nConnection: close\r\n\r\n{\"response\":null}".as_slice()
    );
    sink.restart();
    let message = Out::Str(Text::copied(rt.alloc(), "bad message")?);
    respond(&mut sink, 400, &message, true)?;
    assert_eq!(&rt;
        sink.bytes(),
        b"HTTP/1.1 400 Bad Request\r\nContent-Type: application/json\r\nContent-Length: 23\r\nConnection: close\r\n\r\n{\"error\":\"bad message\"}".as_slice()
    );
    Ok(())
}

#[test]
fn failed_write_stops_a_response(rt: HostRuntime) -> Result<(), Fail> {
    let whole =
        b"HTTP/1.1 501 Not Implemented\r\nContent-Type: application/json\r\nContent-Length: 14\r\n\r\n{\"error\":null}".as_slice();
    for place in 0..11 {
        let plan = FaultList::new([place].to_vec(rt.alloc())?);
        let mut sink = MemorySink::new(rt.alloc(), 1_000, plan);
        assert!(&rt; respond(&mut sink, 501, &Out::Null, false).is_err());
        assert!(&rt; whole.starts_with(sink.bytes()));
        assert_eq!(&rt; sink.planned_faults(), 1);
    }
    Ok(())
}

#[test]
fn errors_are_written_from_parts(rt: HostRuntime) -> Result<(), Fail> {
    let missing: &[&str] = &["missing ", "\"é😀"];
    let rows: [(u16, &[&str], bool, &[u8]); 3] = [
        (
            404,
            missing,
            false,
            b"HTTP/1.1 404 Not Found\r\nContent-Type: application/json\r\nContent-Length: 40\r\n\r\n{\"error\":\"missing \\\"\\u00e9\\ud83d\\ude00\"}",
        ),
        (
            507,
            &["no memory for ", "", "a"],
            true,
            b"HTTP/1.1 507 Insufficient Storage\r\nContent-Type: application/json\r\nContent-Length: 27\r\nConnection: close\r\n\r\n{\"error\":\"no memory for a\"}",
        ),
        (
            200,
            &[],
            false,
            b"HTTP/1.1 200 OK\r\nContent-Type: application/json\r\nContent-Length: 15\r\n\r\n{\"response\":\"\"}",
        ),
    ];
    for (status, parts, last, expected) in rows {
        let mut sink = MemorySink::new(rt.alloc(), 1, NoFaults);
        respond_error(&mut sink, status, parts, last)?;
        assert_eq!(&rt; sink.bytes(), expected);
    }
    Ok(())
}

#[test]
fn failed_write_stops_an_error(rt: HostRuntime) -> Result<(), Fail> {
    let whole =
        b"HTTP/1.1 409 Conflict\r\nContent-Type: application/json\r\nContent-Length: 16\r\n\r\n{\"error\":\"a\\nb\"}".as_slice();
    for place in 0..whole.len() {
        let plan = FaultList::new([place as u64].to_vec(rt.alloc())?);
        let mut sink = MemorySink::new(rt.alloc(), 1, plan);
        assert!(&rt; respond_error(&mut sink, 409, &["a", "\nb"], false).is_err());
        assert_eq!(&rt; sink.bytes(), &whole[..place]);
        assert_eq!(&rt; sink.planned_faults(), 1);
    }
    Ok(())
}
