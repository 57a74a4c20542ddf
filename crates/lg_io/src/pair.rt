ghost use Rattle.std.specs.Prelude.{◌≡◌, ◌||◌, IsTrue, length, option_map, refl};
ghost use Rattle.lg_io.specs.declared.source.ReadStep.TheVariants.{End};
ghost use Rattle.lg_io.specs.declared.source.ReadStep.TheVariants as read;
ghost use Rattle.lg_io.specs.declared.sink.WriteStep.TheVariants as write;
ghost use Rattle.lg_io.specs.Cause.{HasCause};
ghost use Rattle.lg_io.specs.Rest.{of_source, of_sink};
ghost use Rattle.lg_io.specs.Sink.{Takes, taken_of, FitsPiece};
ghost use Rattle.lg_io.specs.Source.{received_after, is_end, FitsBuffer};

use crate::{Link, ReadStep, Sink, Source, WriteStep};

/// A link that is made of a source and a sink.
#[derive(Drop)]
pub struct PairLink<S, K> {
    pub source: S,
    pub sink: K,
}

impl<S: Source, K: Sink> Source for PairLink<S, K> {
    ghost received = { λ l. S.received l.source };

    ghost is_over = { λ l. S.is_over l.source };

    ghost faults = { λ l. S.faults l.source };

    ghost rest = { λ l. of_sink (K.taken l.sink) (K.faults l.sink) };

    fn read(&mut self, buf: &mut [u8]) -> ReadStep
        ensures count { FitsBuffer result (length buf.old) }
        ensures told { S.received self.new.source ≡
            option_map (received_after result buf.new) (S.received self.old.source) }
        ensures over { IsTrue (S.is_over self.old.source) → result ≡ End }
        ensures ends { S.is_over self.new.source ≡ (S.is_over self.old.source || is_end result) }
        ensures cause { HasCause (S.faults self.old.source) (S.faults self.new.source) (result ≡ read.Failed) }
        ensures beside { S.rest self.new.source ≡ S.rest self.old.source }
        ensures sink { self.new.sink ≡ self.old.sink }
    {
        self.source.read(buf)
    }

    ghost tells_its_end = { λ l. S.tells_its_end l.source };
}

impl<S: Source, K: Sink> Sink for PairLink<S, K> {
    ghost taken = { λ l. K.taken l.sink };

    ghost faults = { λ l. K.faults l.sink };

    ghost rest = { λ l. of_source (S.received l.source) (S.faults l.source) (S.is_over l.source) };

    fn write(&mut self, piece: &[u8]) -> WriteStep
        ensures count { FitsPiece result (length piece.now) }
        ensures told { Takes (K.taken self.old.sink) (K.taken self.new.sink) (taken_of result piece.now) }
        ensures cause { HasCause (K.faults self.old.sink) (K.faults self.new.sink) (result ≡ write.Failed) }
        ensures beside { K.rest self.new.sink ≡ K.rest self.old.sink }
        ensures source { self.new.source ≡ self.old.source }
    {
        self.sink.write(piece)
    }
}

impl<S: Source, K: Sink> Link for PairLink<S, K> {
    ghost source_rest = { λ link. refl };

    ghost sink_rest = { λ link. refl };
}
