ghost use Rattle.std.specs.Prelude.{◌≡◌, IfOk, take};
ghost use Rattle.std.specs.Str.{IsAscii};
ghost use Rattle.std.specs.String.{string_bytes};
ghost use Rattle.lg_taskid.specs.Digest.{md5_digits};

use md5::{Digest, Md5};
use std::alloc::{AllocError, Global};

/// The MD5 of a message (RFC 1321), as 32 lower-case hexadecimal digits.
pub(crate) fn md5_digits(alloc: Global, message: &[u8]) -> Result<String, AllocError>
    ensures value { IfOk result (λ digits. string_bytes digits ≡ md5_digits message.now) }
    ensures ascii { IfOk result (λ digits. IsAscii (string_bytes digits)) }
{
    hex::encode(alloc, Md5::digest(message))
}

/// The first ten of these digits.
pub(crate) fn short_hash(alloc: Global, message: &[u8]) -> Result<String, AllocError>
    ensures { IfOk result (λ digits. string_bytes digits ≡ take 10 (md5_digits message.now)) }
{
    let mut digits = md5_digits(alloc, message)?;
    digits.truncate(10);
    Ok(digits)
}
