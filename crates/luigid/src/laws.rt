//! What the definitions come to, in the daemon's own words.
ghost use Rattle.std.specs.Prelude.{◌≡◌, ◌≢◌, ℕ, Bool, List, ◌++◌, codes, false, nat_eq, Ok, Err};
ghost use Rattle.std.specs.List.{starts_with};
ghost use Rattle.lg_io.specs.Sink.{IsPrefix};
ghost use Rattle.lg_calls.specs.declared.method.Method.{Method};
ghost use Rattle.lg_calls.specs.declared.method.MethodFault.{MethodFault};
ghost use Rattle.lg_calls.specs.Call.{request_in};
ghost use Rattle.lg_calls.specs.Method.{method_asked};
ghost use Rattle.lg_desk.specs.declared.journal.Entry.{Entry};
ghost use Rattle.luigid.specs.declared.refusal.Misrouted.TheVariants.{BadVerb, NoLength, UnknownPath};
ghost use Rattle.luigid.specs.declared.refusal.NoCall.TheVariants.{Misrouted as misrouted};
ghost use Rattle.luigid.specs.Call.{call_of, route_of, misrouted_by, or_refused, used_of, MayCall};
ghost use Rattle.luigid.specs.Payload.{path_of, payload_of};
ghost use Rattle.luigid.specs.Session.{Session, IsServed, transcript};

/// What was written to a connection is a front of its transcript, and all of it where its link had no fault.
pub fn transcripts_are_written()
    ensures front { (journal : List Entry) (lane connection : ℕ) (s : Session) → IsServed journal lane connection s → IsPrefix s.link.written (transcript s) }
    ensures whole { (journal : List Entry) (lane connection : ℕ) (s : Session) → IsServed journal lane connection s
        → s.link.faults ≡ 0 → s.link.written ≡ transcript s }
{}

/// The order of refusals: the verb, the length of a POST, the path, the method, and then the payload, of which the method has
/// its own order. Each is looked at only where none before it is at fault.
pub fn first_refusal()
    ensures verb { (verb target body : List ℕ) (sized : Bool) → verb ≢ codes "POST" → verb ≢ codes "GET"
        → call_of verb sized target body ≡ Err (misrouted BadVerb) }
    ensures length { (target body : List ℕ) → call_of (codes "POST") false target body ≡ Err (misrouted NoLength) }
    ensures path { (verb target body : List ℕ) (sized : Bool) → MayCall verb sized
        → starts_with nat_eq (path_of target) (codes "/api/") ≡ false → call_of verb sized target body ≡ Err (misrouted UnknownPath) }
    ensures method { (verb target body name : List ℕ) (sized : Bool) (fault : MethodFault) → MayCall verb sized
        → path_of target ≡ codes "/api/" ++ name → method_asked name ≡ Err fault
        → call_of verb sized target body ≡ Err (misrouted (misrouted_by fault)) }
    ensures payload { (verb target body : List ℕ) (sized : Bool) (method : Method) → MayCall verb sized
        → route_of (path_of target) ≡ Ok method
        → call_of verb sized target body ≡ or_refused (request_in method (payload_of target (used_of verb body))) }
{}
