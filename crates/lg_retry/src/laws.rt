//! What the definitions come to over the whole life of a task, in the words of those who set a policy.
ghost use Rattle.std.specs.Prelude.{◌≡◌, ◌↔◌, ◌+◌, ◌≤◌, IsTrue, All, List, [], ◌∷◌, ◌++◌, slice_get};
ghost use Rattle.lg_base.specs.declared.moment.Moment.{Moment};
ghost use Rattle.lg_retry.specs.declared.policy.Policy.{Policy};
ghost use Rattle.lg_retry.specs.Failures.{History, DoNotFall, is_inside_window, add_failure, failure_count, is_excessive};
ghost use Rattle.lg_retry.specs.Life.{Event, history_after, since_forgotten, whole_history};

/// A failure counts until the window has passed over it.
pub fn counts_while_the_window_lasts()
    ensures { (policy : Policy) (now moment : Moment)
        → IsTrue (is_inside_window now policy moment) ↔ (now.0 ≤ moment.0 + policy.disable_window) }
{}

/// What was dropped never changes a count: behind any life under one policy, the count is that of all failures since
/// they were last forgotten, where these don't fall and the moment of asking isn't before the last of them.
pub fn dropping_keeps_the_count()
    ensures { (policy : Policy) (life : List Event) (now : Moment)
        → DoNotFall (since_forgotten life ++ now ∷ [])
        → failure_count (history_after policy life).moments now policy ≡ failure_count (since_forgotten life) now policy }
{}

/// Nor does it change whether the task has failed too often.
pub fn dropping_keeps_excess()
    ensures { (policy : Policy) (life : List Event) (now : Moment)
        → DoNotFall (since_forgotten life ++ now ∷ [])
        → is_excessive (history_after policy life) now policy ≡ is_excessive (whole_history (since_forgotten life)) now policy }
{}

/// The first failure stays the first until all are forgotten, whatever is dropped.
pub fn first_failure_stays()
    ensures { (policy : Policy) (life : List Event) → (history_after policy life).first ≡ slice_get (since_forgotten life) 0 }
{}

/// One failure more, at a moment that isn't before the others, keeps the moments in order, and none of them is later.
pub fn moments_stay_in_order()
    ensures { (history : History) (now : Moment) (policy : Policy)
        → DoNotFall history.moments
        → All (λ moment. moment.0 ≤ now.0) history.moments
        → DoNotFall (add_failure history now policy).moments
        × All (λ moment. moment.0 ≤ now.0) (add_failure history now policy).moments }
{}
