ghost use Rattle.std.specs.Prelude.{◌≡◌, ◌≢◌, ◌^◌, ◌<◌, ◌≤◌, ◌||◌, ◌↔◌, ◌⊎◌, [], ◌∷◌, None, Some, IfSome, IsTrue, IsErrOf, IfOk, OnErr, All, false, length, refl};
ghost use Rattle.lg_io.specs.declared.door.Accept.TheVariants.{Closed};
ghost use Rattle.lg_io.specs.declared.net.BindFault.TheVariants.{Failed};
ghost use Rattle.lg_io.specs.Cause.{HasCause};
ghost use Rattle.lg_io.specs.Clock.{reading, pause};
ghost use Rattle.lg_io.specs.Door.{accept_kind, is_closing};
ghost use Rattle.lg_io.specs.Rest.{of_door};
ghost use Rattle.lg_io.specs.Tells.{TellsOn};

use super::{ReaderSource, WriterSink};
use crate::{Accept, BindFault, Clock, Door, Net, PairLink};
use lg_base::{Moment, Tally, Text};
use std::alloc::Global;
use std::io::{Read, Write};

/// A door on two streams: it hands out one link over them, and is closed from then on.
#[derive(Drop)]
pub struct StdioDoor<R, W, K> {
    streams: Option<(R, W)>,
    is_closed: bool,
    clock: K,
    ghost gone: { IsTrue is_closed → streams ≡ None },
}

impl<R, W, K> StdioDoor<R, W, K> {
    // A door on these streams that nobody used.
    fn new(reader: R, writer: W, clock: K) -> StdioDoor<R, W, K>
        ensures streams { result.streams ≡ Some (reader, writer) }
        ensures clock { result.clock ≡ clock }
        ensures unclosed { result.is_closed ≡ false }
    {
        StdioDoor {
            streams: Some((reader, writer)),
            is_closed: false,
            clock,
        }
    }
}

impl<R: Read + Drop, W: Write + Drop, K: Clock> Clock for StdioDoor<R, W, K> {
    ghost calls = { λ _. None };

    ghost latest = { λ d. K.latest d.clock };

    ghost rest = { λ d. of_door None 0 d.is_closed };

    fn now(&mut self) -> Moment
        ensures bound { result.0 < 2 ^ 62 }
        ensures later { K.latest self.old.clock ≤ result.0 }
        ensures latest { K.latest self.new.clock ≡ result.0 }
        ensures asked { TellsOn (K.calls self.old.clock) (K.calls self.new.clock) (reading result.0 ∷ []) }
        ensures streams { self.new.streams ≡ self.old.streams }
        ensures closed { self.new.is_closed ≡ self.old.is_closed }
    {
        self.clock.now()
    }

    fn pause(&mut self, ms: u32)
        ensures latest { K.latest self.new.clock ≡ K.latest self.old.clock }
        ensures asked { TellsOn (K.calls self.old.clock) (K.calls self.new.clock) (pause ms ∷ []) }
        ensures streams { self.new.streams ≡ self.old.streams }
        ensures closed { self.new.is_closed ≡ self.old.is_closed }
    {
        self.clock.pause(ms);
    }
}

impl<R, W, K> Door for StdioDoor<R, W, K>
where
    R: Read + Drop + Send,
    W: Write + Drop + Send,
    K: Clock + Send,
{
    ghost use Rattle.lg_io.specs.StdioDoor.{HandsOut};

    type Conn = PairLink<ReaderSource<R>, WriterSink<W>>;

    ghost door = { λ _. None };

    ghost is_closed = { λ d. d.is_closed };

    ghost faults = { λ _. 0 };

    fn accept(&mut self, _alloc: Global) -> Accept<PairLink<ReaderSource<R>, WriterSink<W>>>
        ensures answer { HandsOut self.old.streams result }
        ensures streams { self.new.streams ≡ None }
        ensures clock { self.new.clock ≡ self.old.clock }
        ensures closed { IsTrue self.old.is_closed → result ≡ Closed }
        ensures closes { self.new.is_closed ≡ (self.old.is_closed || is_closing (accept_kind result)) }
    {
        match self.streams.take() {
            Some((reader, writer)) => Accept::Conn(PairLink {
                source: ReaderSource::new(reader),
                sink: WriterSink::new(writer),
            }),
            None => {
                self.is_closed = true;
                Accept::Closed
            }
        }
    }

    fn done(&mut self, _link: PairLink<ReaderSource<R>, WriterSink<W>>)
        ensures { self.new ≡ self.old }
    {}

    ghost clock_rest = { λ d. refl };

    ghost tells_its_close = { λ d. tt };

    ghost no_more_ended = { λ d. tt };
}

/// A net of one door on two streams, as a program that serves its standard streams has it. It looks at no address and
/// no port. A `bind` of another number of doors, or behind the first, fails.
#[derive(Drop)]
pub struct StdioNet<R, W, K> {
    parts: Option<(R, W, K)>,
    faults: Tally,
}

impl<R, W, K> StdioNet<R, W, K>
where
    R: Read + Drop + Send,
    W: Write + Drop + Send,
    K: Clock + Drop + Send,
{
    /// A net on this reader and this writer.
    pub fn new(reader: R, writer: W, clock: K) -> StdioNet<R, W, K>
        ensures parts { result.parts ≡ Some (reader, writer, clock) }
        ensures faults { result.faults.met ≡ 0 }
    {
        StdioNet {
            parts: Some((reader, writer, clock)),
            faults: Tally::none(),
        }
    }
}

impl<R, W, K> Net for StdioNet<R, W, K>
where
    R: Read + Drop + Send,
    W: Write + Drop + Send,
    K: Clock + Drop + Send,
{
    ghost use Rattle.lg_io.specs.StdioDoor.{IsDoorOver};

    type Door = StdioDoor<R, W, K>;

    ghost binds = { λ _. None };

    ghost faults = { λ n. n.faults.met };

    fn bind(
        &mut self,
        alloc: Global,
        _address: &Text,
        _port: u16,
        n: u16,
    ) -> Result<Vec<StdioDoor<R, W, K>>, BindFault>
        ensures count { IfOk result (λ doors. length doors.items ≡ n) }
        ensures over { IfOk result (λ doors. IfSome self.old.parts (λ parts. All (IsDoorOver parts) doors.items)) }
        ensures refused { IsErrOf result Failed ↔ ((n ≢ 1) ⊎ (self.old.parts ≡ None)) }
        ensures once { IfOk result (λ _. self.new.parts ≡ None) }
        ensures stays { OnErr result (self.new.parts ≡ self.old.parts) }
        ensures cause { HasCause self.old.faults.met self.new.faults.met (IsErrOf result Failed) }
    {
        if n != 1 || self.parts.is_none() {
            self.faults = self.faults.with_one_more();
            return Err(BindFault::Failed);
        }
        let Ok(mut doors) = Vec::with_capacity(alloc, 1) else {
            return Err(BindFault::NoMemory);
        };
        if let Some((reader, writer, clock)) = self.parts.take()
            && doors.push(StdioDoor::new(reader, writer, clock)).is_err()
        {
            unreachable!()
        }
        Ok(doors)
    }
}
