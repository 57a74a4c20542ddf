//! Why a message makes no call.
ghost use Rattle.std.specs.Prelude.{◌≡◌};

use lg_calls::{MethodFault, Refusal};

/// Why a message reaches no method: the first of these that applies. Its payload isn't looked at.
#[derive(Clone, Copy, Debug, PartialEq, Eq)]
pub enum Misrouted {
    /// The verb is neither GET nor POST.
    BadVerb,
    /// A POST doesn't tell how long its body is.
    NoLength,
    /// The path doesn't begin with `/api/`.
    UnknownPath,
    /// No method has this name.
    UnknownMethod,
    /// The method isn't built yet.
    NotBuilt,
}

/// Why a message makes no call. The connection stays.
#[derive(Debug, Drop)]
pub enum NoCall {
    /// It reaches no method.
    Misrouted(Misrouted),
    /// It reaches a method, which refuses its payload.
    Refused(Refusal),
}

impl Misrouted {
    ghost use Rattle.luigid.specs.Refusal.{misrouted_status, misrouted_text};

    /// The status of the response.
    pub fn status(self) -> u16
        ensures { result ≡ misrouted_status self }
    {
        match self {
            Misrouted::BadVerb => 405,
            Misrouted::NoLength => 411,
            Misrouted::UnknownPath | Misrouted::UnknownMethod => 404,
            Misrouted::NotBuilt => 501,
        }
    }

    /// What stands under `error`.
    pub fn text(self) -> &'static str
        ensures { result.now ≡ misrouted_text self }
    {
        match self {
            Misrouted::BadVerb => "bad verb",
            Misrouted::NoLength => "no length",
            Misrouted::UnknownPath => "unknown path",
            Misrouted::UnknownMethod => "unknown method",
            Misrouted::NotBuilt => "not built",
        }
    }
}

impl From<MethodFault> for Misrouted {
    ghost use Rattle.luigid.specs.Call.{misrouted_by};

    ghost from_gives = { λ fault misrouted. misrouted ≡ misrouted_by fault };

    fn from(fault: MethodFault) -> Misrouted {
        match fault {
            MethodFault::UnknownMethod => Misrouted::UnknownMethod,
            MethodFault::NotBuilt => Misrouted::NotBuilt,
        }
    }
}
