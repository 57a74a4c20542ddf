//! What is said where no run of the daemon gets yet: that the scheduler is full, and names that a client chose.
use crate::refusal::NoCall;
use crate::said::Said;
use lg_base::{Name, Text};
use lg_calls::{ArgumentName, Refusal};
use lg_io::{MemorySink, NoFaults};
use std::test::Fail;

/// A scheduler that is full with one task.
const FULL: &[u8] =
    b"HTTP/1.1 507 Insufficient Storage\r\nContent-Type: application/json\r\nContent-Length: 18\r\nConnection: close\r\n\r\n{\"error\":\"full 1\"}";

/// The name that a client chose: a quote, a line feed, a letter outside ASCII, and a character past the first plane.
const CHOSEN: &str = "a\"\né\u{1F600}";

/// Its refusal.
const REFUSED: &[u8] =
    b"HTTP/1.1 400 Bad Request\r\nContent-Type: application/json\r\nContent-Length: 46\r\n\r\n{\"error\":\"wrong kind a\\\"\\n\\u00e9\\ud83d\\ude00\"}";

#[test]
fn a_full_scheduler_and_a_chosen_name_are_told(rt: HostRuntime) -> Result<(), Fail> {
    let alloc = rt.alloc();
    let mut sink = MemorySink::new(alloc, 4096, NoFaults);
    assert!(rt; Said::Full(1, true).say(true, &mut sink).is_ok());
    assert_eq!(rt; sink.bytes(), FULL);
    let name = Name::from(Text::copied(alloc, CHOSEN)?);
    let refusal = Refusal::WrongKind(ArgumentName::from(name));
    let mut sink = MemorySink::new(alloc, 4096, NoFaults);
    assert!(rt;
        Said::NotCalled(NoCall::Refused(refusal))
            .say(false, &mut sink)
            .is_ok()
    );
    assert_eq!(rt; sink.bytes(), REFUSED);
    Ok(())
}
