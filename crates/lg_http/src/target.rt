ghost use Rattle.std.specs.Prelude.{◌≡◌, ◌↔◌, List, ℕ, ◌++◌, IsTrue, ◌==◌, IfSome, IsNone};
ghost use Rattle.std.specs.List.{position, list_all};
ghost use Rattle.httparse.specs.Ascii.{space};
ghost use Rattle.httparse.specs.Grammar.{LineEnd, print_blank, print_end};
ghost use Rattle.lg_http.specs.Heads.{is_target_byte, IsInTarget};

use httparse::is_token;

/// Whether the bytes end inside a request target. They may then be no text that `httparse` takes for one, and still
/// nothing is decided: a target is judged as a whole.
pub(crate) fn is_in_target(bytes: &[u8]) -> bool
    ensures { IsTrue result ↔ IsInTarget bytes.now }
{
    let line = without_empty_lines(bytes);
    match first_blank(line) {
        Some(blank) => is_token(&line[..blank]) && is_target(&line[blank + 1..]),
        None => false,
    }
}

fn first_blank(line: &[u8]) -> Option<usize>
    ensures { result ≡ position (λ b. b == space) line.now }
{
    line.iter().position(|b| *b == b' ')
}

fn is_target(bytes: &[u8]) -> bool
    ensures { result ≡ list_all is_target_byte bytes.now }
{
    bytes.iter().all(|b| is_target_byte(*b))
}

/// The bytes behind the empty lines at the front.
fn without_empty_lines(bytes: &[u8]) -> &[u8]
    ensures lines { (blank : List LineEnd) × (bytes.now ≡ print_blank blank ++ result.now) }
    ensures last { (end : LineEnd) (rest : List ℕ) → ¬ (result.now ≡ print_end end ++ rest) }
{
    let mut rest = bytes;
    while let Some(left) = without_line_end(rest) {
        rest = left;
    }
    rest
}

/// The bytes behind a line end at the front, if there is one: CR LF, or LF alone.
fn without_line_end(bytes: &[u8]) -> Option<&[u8]>
    ensures found { IfSome result (λ rest. (end : LineEnd) × (bytes.now ≡ print_end end ++ rest.now)) }
    ensures none { IsNone result → (end : LineEnd) (rest : List ℕ) → ¬ (bytes.now ≡ print_end end ++ rest) }
{
    match bytes.strip_prefix(b"\r\n") {
        Some(rest) => Some(rest),
        None => bytes.strip_prefix(b"\n"),
    }
}

fn is_target_byte(b: u8) -> bool
    ensures { result ≡ is_target_byte b }
{
    !(b == b' ' || b == b'\r' || b == b'\n')
}
