ghost use Rattle.std.specs.Prelude.{◌≡◌, IfOk, OnOk, IsUtf8};
ghost use Rattle.lg_json.specs.Canonical.{pair_text, canonical_text, AreTexts};
ghost use Rattle.lg_io.specs.Writes.{Writes};

use crate::escapes::emit_quoted;
use crate::quoting::{gathered, gathering};
use lg_base::{Failed, Name, NoMemory, Text};
use lg_io::{Sink, write_all};
use std::alloc::Global;

/// The canonical text of pairs, of which ids are made: an object of them in their order, without blanks, in printable
/// ASCII (Luigi 3, `json.dumps` with sorted keys and no blanks). Whoever makes an id gives each name once, in the order
/// of their bytes.
pub fn canonical(alloc: Global, pairs: &[(Name, Text)]) -> Result<Text, NoMemory>
    ensures { IfOk result (λ text. text ≡ canonical_text pairs.now) }
{
    let mut sink = gathering(alloc);
    match emit_pairs(pairs, &mut sink) {
        Ok(()) => Ok(gathered(sink)),
        Err(_) => Err(NoMemory),
    }
}

fn emit_pairs<S: Sink>(pairs: &[(Name, Text)], sink: &mut S) -> Result<(), Failed>
    ensures written { Writes S.taken S.faults S.rest sink.old sink.new (canonical_text pairs.now) result }
    ensures texts { OnOk result (AreTexts pairs.now) }
{
    write_all(sink, b"{")?;
    let mut separator: &[u8] = b"";
    for (name, value) in pairs {
        write_all(sink, separator)?;
        emit_pair(name, value, sink)?;
        separator = b",";
    }
    write_all(sink, b"}")
}

fn emit_pair<S: Sink>(name: &Name, value: &Text, sink: &mut S) -> Result<(), Failed>
    ensures written { Writes S.taken S.faults S.rest sink.old sink.new (pair_text (name.now, value.now)) result }
    ensures texts { OnOk result (IsUtf8 name.now × IsUtf8 value.now) }
{
    emit_quoted(name.as_str(), sink)?;
    write_all(sink, b":")?;
    emit_quoted(value.as_str(), sink)
}
