ghost use Rattle.std.specs.Prelude.{◌≡◌, ◌≢◌, true, false, ◌⊎◌, ℕ, List, [], ◌++◌, Some, None, IsSome, IfOk};
ghost use Rattle.lg_http.specs.declared.message.Next.TheVariants.{Failed};
ghost use Rattle.lg_io.specs.Cause.{HasCause};
ghost use Rattle.lg_http.specs.Answers.{Counts, Hears, Reads, ending_of, quiets_after};
ghost use Rattle.lg_http.specs.Messages.{IsUndecided};

use crate::incoming::Incoming;
use crate::{Next, ReaderEnd};
use lg_base::NoMemory;
use lg_io::Source;
use std::alloc::Global;
use std::marker::Model;

/// Reads messages from a source, in whatever pieces it gives them. It keeps the bytes that it did not give out yet.
#[derive(Drop)]
pub struct Reader {
    incoming: Incoming,
    over: Option<ReaderEnd>,
}

impl Model for Reader {
    ghost use Rattle.lg_http.specs.ReaderView.{ReaderView};
    ghost use Rattle.lg_http.specs.Incoming.{IsReady, bytes_of};

    ghost Value = { ReaderView };

    ghost view = { λ r. record { left = bytes_of r.incoming; quiets = r.incoming.quiets; over = r.over } };

    ghost invariant = { λ r. IsReady r.incoming };
}

impl Reader {
    /// A reader that received nothing. It takes the memory for one head, 16,384 bytes.
    pub fn make(alloc: Global) -> Result<Reader, NoMemory>
        ensures { IfOk result (λ reader. reader ≡ record { left = []; quiets = 0; over = None }) }
    {
        Ok(Reader {
            incoming: Incoming::make(alloc)?,
            over: None,
        })
    }

    /// The next message, once it is whole. Nothing is read where the bytes at hand decide. After any answer but `Message`
    /// and `Quiet` the same answer comes again, and nothing is read; behind a message that is the last it isn't called.
    /// `Idle` is answered where the source is quiet for the 600th time since its last byte. `NoMemory` is answered only
    /// where a whole head is at the front that is served; no byte is lost at it.
    pub fn next<R: Source>(&mut self, alloc: Global, source: &mut R) -> Next
        requires { self.old.over ≢ Some ReaderEnd.Closed }
        ensures reads { self.old.over ≡ None → (got : List ℕ) × Hears (R.received source.old) result got (R.received source.new)
            × Reads (self.old.left ++ got) result self.new.left
            × Counts (quiets_after got self.old.quiets) result self.new.quiets }
        ensures asks { self.old.over ≡ None → IsUndecided self.old.left ⊎ (source.new ≡ source.old) }
        ensures over { self.new.over ≡ ending_of result }
        ensures again { IsSome self.old.over → (self.new ≡ self.old) × (source.new ≡ source.old) }
        ensures cause { self.old.over ≡ None → HasCause (R.faults source.old) (R.faults source.new) (result ≡ Failed) }
        ensures rest { R.rest source.new ≡ R.rest source.old }
    {
        if let Some(end) = self.over {
            return end.answer();
        }
        let answer = self.incoming.next(alloc, source);
        self.over = answer.end();
        answer
    }

    /// Whether it gave its last message, behind which it isn't asked any more.
    pub fn is_closed(&self) -> bool
        ensures open { result ≡ false → self.now.over ≢ Some ReaderEnd.Closed }
        ensures closed { result ≡ true → self.now.over ≡ Some ReaderEnd.Closed }
    {
        matches!(self.over, Some(ReaderEnd::Closed))
    }
}
