//! Settings files, and what each gives as it shows.

mod limits;
mod refused;
mod scheduler;

use crate::settings_of;
use std::alloc::{AllocError, Global};

/// What bytes give, as it shows.
fn shown_bytes(alloc: Global, bytes: &[u8]) -> Result<String, AllocError> {
    let answer = settings_of(alloc, bytes);
    format!(in alloc; "{answer:?}")
}

/// What a file gives, as it shows.
fn shown(alloc: Global, file: &str) -> Result<String, AllocError> {
    shown_bytes(alloc, file.as_bytes())
}
