//! Heads at the limits, and heads that are refused.
use super::{Expected, first, is_expected, post};
use crate::Next;
use std::alloc::Global;
use std::test::Fail;

/// A head with this field and so many that are named `x`.
fn head_with_fields(alloc: Global, field: &[u8], fields: usize) -> Result<Vec<u8>, Fail> {
    let mut head = b"POST / HTTP/1.1\r\n".to_vec(alloc)?;
    for _ in 0..fields {
        head.extend_from_slice(b"x:\r\n")?;
    }
    head.extend_from_slice(field)?;
    head.extend_from_slice(b"\r\n\r\n")?;
    Ok(head)
}

/// A head whose target has so many letters.
fn head_with_target(alloc: Global, letters: usize) -> Result<Vec<u8>, Fail> {
    let mut head = b"POST ".to_vec(alloc)?;
    for _ in 0..letters {
        head.push(b'a')?;
    }
    head.extend_from_slice(b" HTTP/1.1\r\nContent-Length: 0\r\n\r\n")?;
    Ok(head)
}

#[test]
fn heads_at_the_limits_are_served(rt: HostRuntime) -> Result<(), Fail> {
    let served: [&[u8]; 4] = [
        b"\r\n\nPOST / HTTP/1.1\ncontent-length: 1\n\nz",
        b"POST / HTTP/1.1\r\nCONTENT-LENGTH:\t00000000000000000000000001 \r\n\r\nz",
        b"POST / HTTP/1.1\r\nConnection: closed, keep-alive\r\nContent-Length: 1\r\n\r\nz",
        b"POST / HTTP/1.1\r\nX-Connection: close\r\nContent-Length: 1\r\n\r\nz",
    ];
    let call = Expected::Message(post(b"/", b"z"));
    for input in served {
        assert!(&rt; is_expected(&first(rt.alloc(), input)?, call));
    }
    let fields = head_with_fields(rt.alloc(), b"Content-Length: 0", 63)?;
    assert!(&rt;
        is_expected(
            &first(rt.alloc(), &fields)?,
            Expected::Message(post(b"/", b""))
        )
    );
    let target = head_with_target(rt.alloc(), 16_347)?;
    assert!(&rt; matches!(&first(rt.alloc(), &target)?, Next::Message(_)));
    Ok(())
}

#[test]
fn messages_tell_whether_they_close(rt: HostRuntime) -> Result<(), Fail> {
    // Each with whether a field tells the body's length, and whether the message is the last.
    let rows: [(&[u8], bool, bool); 8] = [
        (b"POST / HTTP/1.0\r\nContent-Length: 0\r\n\r\n", true, true),
        (
            b"POST / HTTP/1.0\r\nConnection: keep-alive\r\n\r\n",
            false,
            true,
        ),
        (
            b"POST / HTTP/1.1\r\nContent-Length: 0\r\nConnection: close\r\n\r\n",
            true,
            true,
        ),
        (
            b"GET / HTTP/1.1\r\nConnection: x\r\nCONNECTION: keep-alive ,\tCLOSE \r\n\r\n",
            false,
            true,
        ),
        (b"POST / HTTP/1.1\r\nHost: x\r\n\r\n", false, true),
        (b"GET / HTTP/1.1\r\nHost: x\r\n\r\n", false, false),
        (b"PUT / HTTP/1.1\r\n\r\n", false, false),
        (b"post / HTTP/1.1\r\n\r\n", false, false),
    ];
    for (input, sized, last) in rows {
        match first(rt.alloc(), input)? {
            Next::Message(message) => {
                assert_eq!(&rt; (message.sized, message.last), (sized, last));
            }
            _ => assert!(&rt; false, "{:?}", input),
        }
    }
    Ok(())
}

#[test]
fn what_is_no_message_has_its_status(rt: HostRuntime) -> Result<(), Fail> {
    let refused: [(&[u8], u16); 14] = [
        (
            b"POST / HTTP/1.1\r\nTransfer-Encoding: chunked\r\n\r\n",
            400,
        ),
        (
            b"GET / HTTP/1.1\r\nContent-Length: 0\r\ntransfer-encoding:\r\n\r\n",
            400,
        ),
        (
            b"POST / HTTP/1.1\r\nContent-Length: 0\r\ncontent-length: 0\r\n\r\n",
            400,
        ),
        (
            b"POST / HTTP/1.1\r\nContent-Length: 1048577\r\nTransfer-Encoding: x\r\n\r\n",
            400,
        ),
        (b"POST / HTTP/1.1\r\nContent-Length: +5\r\n\r\n", 400),
        (b"POST / HTTP/1.1\r\nContent-Length: -1\r\n\r\n", 400),
        (b"POST / HTTP/1.1\r\nContent-Length: 0, 0\r\n\r\n", 400),
        (b"POST / HTTP/1.1\r\nContent-Length:\r\n\r\n", 400),
        (b"POST / HTTP/1.1\r\nContent-Length: 1048577\r\n\r\n", 413),
        (
            b"PUT / HTTP/1.1\r\nContent-Length: 18446744073709551616\r\n\r\n",
            413,
        ),
        (
            b"POST / HTTP/1.1\r\nContent-Length: 1844674407370955161x\r\n\r\n",
            400,
        ),
        (b"POST \x01 ", 400),
        (b"POST / HTTP/2.0\r\n", 400),
        (b"\0", 400),
    ];
    for (input, status) in refused {
        assert!(&rt;
            is_expected(&first(rt.alloc(), input)?, Expected::Bad(status)),
            "{:?}",
            input
        );
    }
    Ok(())
}

#[test]
fn long_heads_have_their_status(rt: HostRuntime) -> Result<(), Fail> {
    // 64 fields beside the one that is written out.
    let rows: [(&[u8], u16); 4] = [
        (b"Content-Length: 0", 431),
        (b"Content-Length: 1048577", 431),
        (b"Content-Length: x", 400),
        (b"Transfer-Encoding: chunked", 400),
    ];
    for (field, status) in rows {
        let head = head_with_fields(rt.alloc(), field, 64)?;
        assert!(&rt; is_expected(&first(rt.alloc(), &head)?, Expected::Bad(status)));
    }
    let target = head_with_target(rt.alloc(), 16_348)?;
    assert!(&rt; is_expected(&first(rt.alloc(), &target)?, Expected::Bad(431)));
    Ok(())
}
