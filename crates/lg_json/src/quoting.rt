ghost use Rattle.std.specs.Prelude.{◌≡◌, [], IfOk, IfSome, Some};
ghost use Rattle.std.specs.Str.{IsAscii};
ghost use Rattle.lg_json.specs.Text.{quoted};

use crate::escapes::emit_quoted;
use lg_base::{NoMemory, Text};
use lg_io::{MemorySink, NoFaults, Sink};
use std::alloc::Global;

/// A text between quotes, with the escapes of JSON (RFC 8259, section 7) for all but printable ASCII.
pub fn quote(alloc: Global, text: &str) -> Result<Text, NoMemory>
    ensures { IfOk result (λ quote. quote ≡ quoted text.now) }
{
    let mut sink = gathering(alloc);
    match emit_quoted(text, &mut sink) {
        Ok(()) => Ok(gathered(sink)),
        Err(_) => Err(NoMemory),
    }
}

/// A sink for one text. It takes each piece whole, and fails for want of memory alone.
pub(crate) fn gathering(alloc: Global) -> MemorySink<NoFaults>
    ensures { ⟦<MemorySink<NoFaults> as Sink>⟧.taken result ≡ Some [] }
{
    MemorySink::new(alloc, usize::MAX, NoFaults)
}

/// The text that a sink took. It takes no memory.
pub(crate) fn gathered(sink: MemorySink<NoFaults>) -> Text
    requires { IfSome (⟦<MemorySink<NoFaults> as Sink>⟧.taken sink) IsAscii }
    ensures { ⟦<MemorySink<NoFaults> as Sink>⟧.taken sink ≡ Some result }
{
    Text::from_string(String::from_utf8(sink.into_bytes()).unwrap())
}
