ghost use Rattle.std.specs.Prelude.{◌≡◌, ℕ, List, ◌++◌};
ghost use Rattle.lg_http.specs.Messages.{WholeMessage, Splits, OnlyLastCloses, AreAll, WantsMemory, IsBad, IsRefusalStatus, IsUndecided};

/// A stream is read in one way only: the messages and the rest behind them are determined by its bytes.
pub fn one_reading()
    ensures { (stream : List ℕ) (messages others : List WholeMessage) (rest left : List ℕ)
        → Splits stream messages rest → AreAll messages rest
        → Splits stream others left → AreAll others left
        → (messages ≡ others) × (rest ≡ left) }
{}

/// A rest that is bad is not one that still may become a message.
pub fn never_both()
    ensures { (status : ℕ) (rest : List ℕ) → IsBad status rest → ¬ IsUndecided rest }
{}

/// What is bad is answered with one status.
pub fn one_status()
    ensures { (status other : ℕ) (rest : List ℕ) → IsBad status rest → IsBad other rest → status ≡ other }
{}

/// What is bad is answered with 400, 413 or 431.
pub fn three_statuses()
    ensures { (status : ℕ) (rest : List ℕ) → IsBad status rest → IsRefusalStatus status }
{}

/// Where what stands at the front is bad no memory is wanted: that it is bad can always be told.
pub fn bad_wants_no_memory()
    ensures { (status : ℕ) (rest : List ℕ) → IsBad status rest → ¬ WantsMemory rest }
{}

/// What is bad stays bad, with its status, whatever bytes follow.
pub fn bad_stays()
    ensures { (status : ℕ) (rest more : List ℕ) → IsBad status rest → IsBad status (rest ++ more) }
{}

/// Messages at the front of a stream are its first, whatever stands behind them.
pub fn first_messages()
    ensures { (stream : List ℕ) (messages all : List WholeMessage) (behind rest : List ℕ)
        → Splits stream messages behind → OnlyLastCloses messages
        → Splits stream all rest → AreAll all rest
        → (more : List WholeMessage) × (all ≡ messages ++ more) }
{}
