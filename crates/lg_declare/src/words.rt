//! The keys of a declaration, and its names.
ghost use Rattle.std.specs.Prelude.{◌≡◌, ◌&&◌};
ghost use Rattle.std.specs.Char.{is_ascii_alphabetic};
ghost use Rattle.std.specs.List.{list_all};
ghost use Rattle.lg_declare.specs.Keys.{is_name, is_name_byte};

pub(crate) static FAMILY_KEYS: [&str; 11] = [
    "command",
    "outputs",
    "external",
    "requires",
    "resources",
    "priority",
    "retry_count",
    "disable_window",
    "disable_hard_timeout",
    "max_batch_size",
    "params",
];

pub(crate) static PARAMETER_KEYS: [&str; 5] = [
    "kind",
    "default",
    "significant",
    "choices",
    "batch",
];

pub(crate) static REQUIREMENT_KEYS: [&str; 2] = ["task", "params"];

pub(crate) static TOP_KEYS: [&str; 1] = ["task"];

/// A letter followed by letters, digits or `_`, all ASCII.
pub(crate) fn is_name(text: &str) -> bool
    ensures { result ≡ is_name text.now }
{
    match text.as_bytes().split_first() {
        Some((first, others)) => begins_name(*first, others),
        None => false,
    }
}

fn begins_name(first: u8, others: &[u8]) -> bool
    ensures { result ≡ (is_ascii_alphabetic first && list_all is_name_byte others.now) }
{
    first.is_ascii_alphabetic() && are_name_bytes(others)
}

fn are_name_bytes(bytes: &[u8]) -> bool
    ensures { result ≡ list_all is_name_byte bytes.now }
{
    bytes.iter().all(|byte| is_name_byte(*byte))
}

fn is_name_byte(byte: u8) -> bool
    ensures { result ≡ is_name_byte byte }
{
    byte.is_ascii_alphanumeric() || byte == b'_'
}
