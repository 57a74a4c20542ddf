ghost use Rattle.std.specs.Prelude.{IfOk};
ghost use Rattle.lg_params.specs.Kinds.{IsOfKind, HoldsUtf8};
ghost use Rattle.lg_params.specs.Ranges.{IsWritable};
ghost use Rattle.lg_params.specs.Spelling.{Spells};
ghost use Rattle.lg_params.specs.Writing.{IsWritten};
ghost use Rattle.lg_params.specs.declared.kinds.Kind.{Kind};

use crate::Param;
use crate::date_texts::{date_hour_text, date_minute_text, date_text, month_text, year_text};
use crate::lists::list_text;
use itoa::Buffer;
use lg_base::{NoMemory, Text};
use std::alloc::Global;

/// The one text of a value. A value of a date kind must lie in the years 0001 to 9999, as all do that were read.
pub fn write(alloc: Global, param: &Param) -> Result<Text, NoMemory>
    requires { IsWritable param.now }
    ensures text { IfOk result (IsWritten param.now) }
    // Reading it gives the value back.
    ensures read_back { IfOk result (λ text. (kind : Kind) → IsOfKind kind param.now → Spells kind text param.now) }
{
    written(alloc, param)
}

fn written(alloc: Global, param: &Param) -> Result<Text, NoMemory>
    requires { IsWritable param.now }
    ensures { IfOk result (λ text. IsWritten param.now text × HoldsUtf8 param.now) }
{
    match param {
        Param::Text(text) => Ok(text.clone()?),
        Param::Int(number) => Ok(Text::copied(alloc, Buffer::new().format(*number))?),
        Param::Truth(true) => Ok(Text::copied(alloc, "True")?),
        Param::Truth(false) => Ok(Text::copied(alloc, "False")?),
        Param::Date(days) => Ok(Text::from_string(date_text(alloc, *days)?)),
        Param::DateHour(hours) => Ok(Text::from_string(date_hour_text(alloc, *hours)?)),
        Param::DateMinute(minutes) => Ok(Text::from_string(date_minute_text(alloc, *minutes)?)),
        Param::Month(months) => Ok(Text::from_string(month_text(alloc, *months)?)),
        Param::Year(year) => Ok(Text::from_string(year_text(alloc, *year)?)),
        Param::Choice(text) => Ok(text.clone()?),
        Param::Texts(texts) => list_text(alloc, texts.texts()),
    }
}
