//! Messages that come in pieces, and what is answered where one doesn't come.
use super::{Expected, Parts, TWO_CALLS, first, is_expected, next, post, source_of, two_calls};
use crate::{Next, Reader};
use lg_io::{FaultList, MemorySource, ReadStep, Source, Turn};
use std::alloc::Global;
use std::process::Abort;
use std::test::Fail;

/// The answers to an input that comes in two pieces with two quiet turns between. Beside each answer stands the number
/// of bytes that decide it, for one that only the end decides one more than there are: where fewer came, the quiet turns
/// are told first.
fn assert_answers(
    rt: &impl Abort,
    alloc: Global,
    input: &[u8],
    cut: usize,
    answers: &[(Expected, usize)],
) -> Result<(), Fail> {
    let mut source = source_of(alloc, input, &[Turn::Piece(cut), Turn::Quiet, Turn::Quiet])?;
    let mut reader = Reader::make(alloc)?;
    let mut was_quiet = false;
    for (expected, decided) in answers {
        if cut < *decided && !was_quiet {
            was_quiet = true;
            for quiets in 1..=2 {
                assert!(rt; matches!(&next(rt, alloc, &mut reader, &mut source), Next::Quiet));
                assert_eq!(rt; source.quiets(), quiets);
            }
        }
        assert!(rt;
            is_expected(&next(rt, alloc, &mut reader, &mut source), *expected),
            "cut at {cut}"
        );
    }
    Ok(())
}

#[test]
fn answers_are_the_same_at_each_cut(rt: HostRuntime) -> Result<(), Fail> {
    let [update, stop] = two_calls();
    let get = Parts {
        verb: b"GET",
        sized: false,
        ..post(b"/api/nope", b"")
    };
    let last = Parts {
        last: true,
        ..post(b"/b", b"")
    };
    let table: [(&[u8], &[(Expected, usize)]); 7] = [
        (
            TWO_CALLS,
            &[(update, 123), (stop, 178), (Expected::End, 179)],
        ),
        (
            b"GET /api/nope HTTP/1.1\r\n\r\nPOST /a HTTP/1.1\r\nContent-Length: 3\r\n\r\nxyz",
            &[
                (Expected::Message(get), 26),
                (Expected::Message(post(b"/a", b"xyz")), 68),
                (Expected::End, 69),
            ],
        ),
        (
            b"POST /a HTTP/1.1\r\nContent-Length: 3\r\n\r\nxyzPOST /b HTTP/1.0\r\nContent-Length: 0\r\n\r\nPOST",
            &[
                (Expected::Message(post(b"/a", b"xyz")), 42),
                (Expected::Message(last), 81),
            ],
        ),
        (
            b"POST \x01 HTTP/1.1\r\n\r\n",
            &[(Expected::Bad(400), 7), (Expected::Bad(400), 7)],
        ),
        (
            b"POST / HTTP/1.1\r\nContent-Length: 1048577\r\n\r\nabc",
            &[(Expected::Bad(413), 44), (Expected::Bad(413), 44)],
        ),
        (
            b"POST /a HTTP/1.1\r\nContent-Length: 3\r\n\r\nxy",
            &[(Expected::Torn, 42), (Expected::Torn, 42)],
        ),
        (
            b"\r\n\nPOST /a?b HTTP/1.1\ncontent-length: 1\n\nz",
            &[
                (Expected::Message(post(b"/a?b", b"z")), 42),
                (Expected::End, 43),
                (Expected::End, 43),
            ],
        ),
    ];
    for (input, answers) in table {
        for cut in 1..=input.len() {
            assert_answers(&rt, rt.alloc(), input, cut, answers)?;
        }
    }
    Ok(())
}

#[test]
fn messages_come_byte_by_byte(rt: HostRuntime) -> Result<(), Fail> {
    let single = vec![in rt.alloc(); Turn::Piece(1); TWO_CALLS.len()]?;
    let mut source = source_of(rt.alloc(), TWO_CALLS, &single)?;
    let mut reader = Reader::make(rt.alloc())?;
    let [update, stop] = two_calls();
    for expected in [update, stop, Expected::End, Expected::End] {
        assert!(&rt; is_expected(&next(&rt, rt.alloc(), &mut reader, &mut source), expected));
    }
    Ok(())
}

/// A source that counts its reads.
#[derive(Drop)]
struct Counted<S> {
    source: S,
    reads: usize,
}

impl<S: Source> Source for Counted<S> {
    ghost received = { λ c. S.received c.source };

    ghost is_over = { λ c. S.is_over c.source };

    ghost faults = { λ c. S.faults c.source };

    ghost rest = { λ c. S.rest c.source };

    ghost tells_its_end = { λ c. S.tells_its_end c.source };

    fn read(&mut self, buf: &mut [u8]) -> ReadStep {
        self.reads = self.reads.saturating_add(1);
        self.source.read(buf)
    }
}

#[test]
fn nothing_is_read_where_the_bytes_at_hand_decide(rt: HostRuntime) -> Result<(), Fail> {
    let mut source = Counted {
        source: source_of(rt.alloc(), TWO_CALLS, &[])?,
        reads: 0,
    };
    let mut reader = Reader::make(rt.alloc())?;
    let [update, stop] = two_calls();
    for (expected, reads) in [
        (update, 1),
        (stop, 1),
        (Expected::End, 2),
        (Expected::End, 2),
    ] {
        assert!(&rt; is_expected(&next(&rt, rt.alloc(), &mut reader, &mut source), expected));
        assert_eq!(&rt; source.reads, reads);
    }
    Ok(())
}

#[test]
fn many_messages_pass_through_the_window(rt: HostRuntime) -> Result<(), Fail> {
    let mut input = Vec::new(rt.alloc());
    for _ in 0..400 {
        input.extend_from_slice(b"POST /a HTTP/1.1\r\nContent-Length: 3\r\n\r\nxyz")?;
    }
    let mut source = source_of(rt.alloc(), &input, &[])?;
    let mut reader = Reader::make(rt.alloc())?;
    let call = Expected::Message(post(b"/a", b"xyz"));
    for _ in 0..400 {
        assert!(&rt; is_expected(&next(&rt, rt.alloc(), &mut reader, &mut source), call));
    }
    assert!(&rt; matches!(&next(&rt, rt.alloc(), &mut reader, &mut source), Next::End));
    Ok(())
}

/// Reads a message whose body has so many bytes, in pieces of one size.
fn assert_long_body(
    rt: &impl Abort,
    alloc: Global,
    piece: usize,
    pieces: usize,
) -> Result<(), Fail> {
    let mut input = b"POST / HTTP/1.1\r\nContent-Length: 1048576\r\n\r\n".to_vec(alloc)?;
    let head = input.len();
    input.resize(head.saturating_add(1_048_576), b'x')?;
    input.extend_from_slice(b"GET / HTTP/1.1\r\n\r\n")?;
    let turns = vec![in alloc; Turn::Piece(piece); pieces]?;
    let mut source = source_of(alloc, &input, &turns)?;
    let mut reader = Reader::make(alloc)?;
    match next(rt, alloc, &mut reader, &mut source) {
        Next::Message(message) => {
            assert_eq!(rt; message.body.len(), 1_048_576);
            assert!(rt; message.body.iter().all(|b| *b == b'x'));
        }
        _ => assert!(rt; false, "pieces of {piece}"),
    }
    assert!(rt; matches!(&next(rt, alloc, &mut reader, &mut source), Next::Message(_)));
    assert!(rt; matches!(&next(rt, alloc, &mut reader, &mut source), Next::End));
    Ok(())
}

#[test]
fn longest_body_comes_in_pieces(rt: HostRuntime) -> Result<(), Fail> {
    assert_long_body(&rt, rt.alloc(), 1, 1_048_700)?;
    assert_long_body(&rt, rt.alloc(), 65_536, 20)
}

#[test]
fn source_that_stays_quiet_is_idle(rt: HostRuntime) -> Result<(), Fail> {
    let mut turns = vec![in rt.alloc(); Turn::Quiet; 1_199]?;
    assert_eq!(&rt; turns.len(), 1_199);
    turns[599] = Turn::Piece(1);
    turns.push(Turn::Quiet)?;
    let mut source = source_of(rt.alloc(), b"POST", &turns)?;
    let mut reader = Reader::make(rt.alloc())?;
    for _ in 0..1_198 {
        assert!(&rt;
            matches!(
                &next(&rt, rt.alloc(), &mut reader, &mut source),
                Next::Quiet
            )
        );
    }
    for _ in 0..2 {
        assert!(&rt; matches!(&next(&rt, rt.alloc(), &mut reader, &mut source), Next::Idle));
    }
    Ok(())
}

#[test]
fn input_that_ends_inside_a_message_is_torn(rt: HostRuntime) -> Result<(), Fail> {
    let torn: [&[u8]; 5] = [
        b"\r",
        b"POST \x01",
        b"POST / HT",
        b"POST / HTTP/1.1\r\nContent-Length: 3\r\n\r",
        b"POST / HTTP/1.1\r\nContent-Length: 3\r\n\r\nab",
    ];
    for input in torn {
        assert!(&rt; is_expected(&first(rt.alloc(), input)?, Expected::Torn));
    }
    assert!(&rt; is_expected(&first(rt.alloc(), b"")?, Expected::End));
    Ok(())
}

#[test]
fn failed_read_ends_the_reader(rt: HostRuntime) -> Result<(), Fail> {
    let input = b"POST /a HTTP/1.1\r\nContent-Length: 3\r\n\r\nxyz";
    for place in 0..input.len() {
        let turns = vec![in rt.alloc(); Turn::Piece(1); input.len()]?;
        let plan = FaultList::new([place as u64].to_vec(rt.alloc())?);
        let mut source = MemorySource::new(input.to_vec(rt.alloc())?, turns, plan);
        let mut reader = Reader::make(rt.alloc())?;
        assert!(&rt;
            matches!(
                &next(&rt, rt.alloc(), &mut reader, &mut source),
                Next::Failed
            )
        );
        assert!(&rt;
            matches!(
                &next(&rt, rt.alloc(), &mut reader, &mut source),
                Next::Failed
            )
        );
        assert_eq!(&rt; source.given().len(), place);
    }
    Ok(())
}
