//! What the definitions come to, in the words of those who read the texts.
ghost use Rattle.std.specs.List.{All};
ghost use Rattle.std.specs.Prelude.{◌≡◌, ℕ, List, map, IsUtf8};
ghost use Rattle.lg_json.specs.Canonical.{canonical_text, AreTexts, IsPrintable};
ghost use Rattle.lg_json.specs.Text.{quoted, text_of};
ghost use Rattle.lg_json.specs.Tree.{str, object, members_of};

/// What stands for a text is printable ASCII.
pub fn quotes_are_printable()
    ensures { (text : List ℕ) → IsUtf8 text → All IsPrintable (quoted text) }
{}

/// A canonical text is printable ASCII.
pub fn canonical_texts_are_printable()
    ensures { (pairs : List (List ℕ × List ℕ)) → AreTexts pairs → All IsPrintable (canonical_text pairs) }
{}

/// A canonical text is the compact text of an object that has the values as texts.
pub fn canonical_texts_are_objects()
    ensures { (pairs : List (List ℕ × List ℕ))
        → canonical_text pairs ≡ text_of (object (members_of (map (λ pair. (pair.0, str pair.1)) pairs))) }
{}
