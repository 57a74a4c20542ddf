use super::files::read_within;
use super::*;
use crate::{
    Accept, BindFault, Clock, Door, Net, Numbers, ReadStep, Sink, Source, WriteStep, write_all,
};
use lg_base::{Moment, Text};
use std::io::{ErrorKind, Read, Write};
use std::random::RandomSource;
use std::test::Fail;
use std::time::Duration;
use std::{io, time};

/// Gives a byte, then its errors, then its end.
#[derive(Drop)]
struct Line {
    given: bool,
    errors: Vec<ErrorKind>,
}

impl Read for Line {
    fn read(&mut self, buf: &mut [u8]) -> io::Result<usize> {
        if !self.given && !buf.is_empty() {
            self.given = true;
            buf[0] = b'x';
            return Ok(1);
        }
        match self.errors.pop() {
            Some(kind) => Err(io::Error::from(kind)),
            None => Ok(0),
        }
    }
}

/// Is at its end at first, and then has bytes again.
#[derive(Drop)]
struct Terminal {
    reads: usize,
}

impl Read for Terminal {
    fn read(&mut self, buf: &mut [u8]) -> io::Result<usize> {
        self.reads = self.reads.saturating_add(1);
        if self.reads == 1 {
            return Ok(0);
        }
        buf.fill(b'x');
        Ok(buf.len())
    }
}

/// Takes at most so many bytes in all.
#[derive(Drop)]
struct Room {
    left: usize,
}

impl Write for Room {
    fn write(&mut self, buf: &[u8]) -> io::Result<usize> {
        let count = buf.len().min(self.left);
        self.left -= count;
        Ok(count)
    }

    fn flush(&mut self) -> io::Result<()> {
        Ok(())
    }
}

/// A clock that stands, and a random source that gives one byte or nothing.
#[derive(Clone, Copy)]
struct Given {
    ms: u64,
    byte: Option<u8>,
}

impl time::Clock for Given {
    fn monotonic(&self) -> io::Result<Duration> {
        self.since_1970()
    }

    fn since_1970(&self) -> io::Result<Duration> {
        Ok(Duration::from_millis(self.ms))
    }
}

impl RandomSource for Given {
    fn fill_bytes(&self, buf: &mut [u8]) -> io::Result<()> {
        match self.byte {
            Some(byte) => {
                buf.fill(byte);
                Ok(())
            }
            None => Err(io::Error::from(ErrorKind::Other)),
        }
    }
}

#[test]
fn reader_answers_by_the_kind_of_error(rt: HostRuntime) -> Result<(), Fail> {
    let kinds = [
        ErrorKind::Interrupted,
        ErrorKind::BrokenPipe,
        ErrorKind::TimedOut,
        ErrorKind::WouldBlock,
    ];
    let errors = kinds.to_vec(rt.alloc())?;
    let mut source = ReaderSource::new(Line {
        given: false,
        errors,
    });
    let wanted = [
        ReadStep::Bytes(1),
        ReadStep::Quiet,
        ReadStep::Quiet,
        ReadStep::Failed,
        ReadStep::Quiet,
        ReadStep::End,
        ReadStep::End,
    ];
    let mut buf = [0; 4];
    for step in &wanted {
        assert_eq!(rt; source.read(&mut buf), *step);
    }
    assert_eq!(rt; buf[0], b'x');
    Ok(())
}

#[test]
fn source_gives_what_its_reader_gives(rt: HostRuntime) {
    let mut source = ReaderSource::new(b"abc".as_slice());
    let mut buf = [0; 2];
    assert_eq!(rt; source.read(&mut []), ReadStep::Bytes(0));
    assert_eq!(rt; source.read(&mut buf), ReadStep::Bytes(2));
    assert_eq!(rt; buf, *b"ab");
    assert_eq!(rt; source.read(&mut buf), ReadStep::Bytes(1));
    assert_eq!(rt; buf, *b"cb");
    assert_eq!(rt; source.read(&mut buf), ReadStep::End);
}

#[test]
fn source_leaves_its_reader_alone_behind_the_end(rt: HostRuntime) {
    let mut terminal = Terminal { reads: 0 };
    let mut source = ReaderSource::new(&mut terminal);
    let mut buf = [0; 2];
    for _ in 0..3 {
        assert_eq!(rt; source.read(&mut buf), ReadStep::End);
    }
    assert_eq!(rt; terminal.reads, 1);
}

#[test]
fn sink_gives_its_writer_what_it_takes(rt: HostRuntime) -> Result<(), Fail> {
    let mut bytes = b"<".to_vec(rt.alloc())?;
    let mut sink = WriterSink::new(&mut bytes);
    assert!(rt; write_all(&mut sink, b"ab").is_ok());
    assert!(rt; write_all(&mut sink, b"c").is_ok());
    assert_eq!(rt; bytes.as_slice(), b"<abc".as_slice());
    Ok(())
}

#[test]
fn files_are_read_up_to_their_most_bytes(rt: HostRuntime) -> Result<(), Fail> {
    for (most, fits) in [(0, false), (2, false), (3, true), (4, true)] {
        match read_within(rt.alloc(), b"abc".as_slice(), most) {
            Ok(bytes) => {
                assert!(rt; fits, "at {most}");
                assert_eq!(rt; bytes.as_slice(), b"abc".as_slice());
            }
            Err(error) => {
                assert!(rt; !fits, "at {most}");
                assert_eq!(rt; error.kind(), ErrorKind::FileTooLarge);
            }
        }
    }
    assert!(rt; read_within(rt.alloc(), b"".as_slice(), 0)?.is_empty());
    Ok(())
}

#[test]
fn writer_fails_where_it_takes_nothing(rt: HostRuntime) {
    let mut sink = WriterSink::new(Room { left: 3 });
    assert_eq!(rt; sink.write(b"ab"), WriteStep::Took(2));
    assert_eq!(rt; sink.write(b"cd"), WriteStep::Took(1));
    assert_eq!(rt; sink.write(b"d"), WriteStep::Failed);
    assert_eq!(rt; sink.write(b""), WriteStep::Took(0));
}

#[test]
fn clock_stays_below_its_bound(rt: HostRuntime) {
    let mut clock = SystemClock::new(Given {
        ms: 1500,
        byte: None,
    });
    assert_eq!(rt; clock.now(), Moment(1500));
    clock.pause(1);
    let mut far = SystemClock::new(Given {
        ms: u64::MAX,
        byte: None,
    });
    assert_eq!(rt; far.now(), Moment((1 << 62) - 1));
}

#[test]
fn numbers_go_on_without_a_source(rt: HostRuntime) {
    let mut numbers = RandomNumbers::new(Given {
        ms: 0,
        byte: Some(1),
    });
    assert_eq!(rt; numbers.draw(), 0x0101_0101_0101_0101);
    let mut without = RandomNumbers::new(Given { ms: 0, byte: None });
    let first = without.draw();
    assert!(rt; first != without.draw());
}

#[test]
fn standard_streams_are_one_door(rt: HostRuntime) -> Result<(), Fail> {
    let address = Text::copied(rt.alloc(), "anywhere")?;
    let clock = SystemClock::new(Given { ms: 7, byte: None });
    let line = Line {
        given: false,
        errors: Vec::new(rt.alloc()),
    };
    let mut net = StdioNet::new(line, Room { left: 9 }, clock);
    let two = net.bind(rt.alloc(), &address, 0, 2);
    assert!(rt; matches!(two, Err(BindFault::Failed)));
    let Ok(mut doors) = net.bind(rt.alloc(), &address, 0, 1) else {
        return Err(Fail::from("no door"));
    };
    assert_eq!(rt; doors.len(), 1);
    let door = &mut doors[0];
    let Accept::Conn(mut link) = door.accept(rt.alloc()) else {
        return Err(Fail::from("no link"));
    };
    assert_eq!(rt; link.read(&mut [0; 4]), ReadStep::Bytes(1));
    assert_eq!(rt; link.write(b"out"), WriteStep::Took(3));
    door.done(link);
    assert!(rt; matches!(door.accept(rt.alloc()), Accept::Closed));
    assert!(rt; matches!(door.accept(rt.alloc()), Accept::Closed));
    assert_eq!(rt; door.now(), Moment(7));
    let again = net.bind(rt.alloc(), &address, 0, 1);
    assert!(rt; matches!(again, Err(BindFault::Failed)));
    Ok(())
}
