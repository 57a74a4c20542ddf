ghost use Rattle.std.specs.Prelude.{◌≡◌, ℕ, ◌+◌, ◌≤◌, Bool, false, IsTrue};
ghost use Rattle.lg_io.specs.Cause.{HasCause};
ghost use Rattle.lg_io.specs.FaultPlan.{behind, listed};

/// Which calls of an object in memory are to fail. The object asks once in each call that may fail.
pub trait FaultPlan: Drop {
    /// How many calls it made fail.
    ghost faults: { Self → ℕ };

    /// Which calls are to fail, counted from 0 from its beginning on.
    ghost script: { Self → ℕ → Bool };

    /// The same, counted from the next call on.
    ghost due: { Self → ℕ → Bool };

    /// Whether this call is to fail.
    fn is_due(&mut self) -> bool
        ensures due { result ≡ due self.old 0 }
        ensures next { due self.new ≡ behind (due self.old) }
        ensures script { script self.new ≡ script self.old }
        ensures cause { HasCause (faults self.old) (faults self.new) (IsTrue result) };

    /// How many calls it made fail.
    fn fault_count(&self) -> u64
        ensures { result ≡ faults self.now };

    /// Begins the plan anew, as if no call had been made.
    fn restart(&mut self)
        ensures due { due self.new ≡ script self.old }
        ensures script { script self.new ≡ script self.old }
        ensures faults { faults self.new ≡ 0 };
}

/// The plan of an object that never fails.
#[derive(Clone, Copy, Debug)]
pub struct NoFaults;

impl FaultPlan for NoFaults {
    ghost faults = { λ _. 0 };

    ghost script = { λ _ _. false };

    ghost due = { λ _ _. false };

    fn is_due(&mut self) -> bool {
        false
    }

    fn fault_count(&self) -> u64 {
        0
    }

    fn restart(&mut self) {}
}

/// The plan of an object that fails at the calls with these numbers, counted from 0. It fails at no call from number
/// `u64::MAX` on.
#[derive(Debug, Drop)]
pub struct FaultList {
    /// The numbers of the calls that are to fail, in any order.
    pub numbers: Vec<u64>,
    /// The number of the next call.
    pub calls: u64,
    faults: u64,
    ghost in_calls: { faults ≤ calls },
}

impl FaultList {
    /// A plan that begins.
    pub fn new(numbers: Vec<u64>) -> FaultList
        ensures numbers { result.numbers ≡ numbers }
        ensures calls { result.calls ≡ 0 }
        ensures due { ⟦<FaultList as FaultPlan>⟧.due result ≡ listed numbers.items }
        ensures script { ⟦<FaultList as FaultPlan>⟧.script result ≡ listed numbers.items }
        ensures faults { ⟦<FaultList as FaultPlan>⟧.faults result ≡ 0 }
    {
        FaultList {
            numbers,
            calls: 0,
            faults: 0,
        }
    }
}

impl FaultPlan for FaultList {
    ghost faults = { λ p. p.faults };

    ghost script = { λ p. listed p.numbers.items };

    ghost due = { λ p call. listed p.numbers.items (p.calls + call) };

    fn is_due(&mut self) -> bool {
        if self.calls == u64::MAX {
            return false;
        }
        let is_due = self.numbers.contains(&self.calls);
        self.calls += 1;
        if is_due {
            self.faults += 1;
        }
        is_due
    }

    fn fault_count(&self) -> u64 {
        self.faults
    }

    fn restart(&mut self) {
        self.calls = 0;
        self.faults = 0;
    }
}
