//! Laws of templates and of defaults, in the words of the texts that they are.
ghost use Rattle.std.specs.Prelude.{◌≡◌, ◌↔◌, ℕ, List, map, Some, true};
ghost use Rattle.lg_params.specs.Spelling.{Spells};
ghost use Rattle.lg_params.specs.declared.kinds.Kind.{Kind};
ghost use Rattle.lg_params.specs.declared.params.Param.{Param};
ghost use Rattle.lg_declare.specs.Kinds.{reads};
ghost use Rattle.lg_declare.specs.Template.{Part, byte, Says, parts_of, text_of, template_of, spelled};

/// The parts that a text is read as say it.
pub fn parts_say_the_text()
    ensures { (text : List ℕ) (parts : List Part) → parts_of text ≡ Some parts → Says text parts }
{}

/// A text is read as the parts that say it, and so as no others.
pub fn said_parts_are_read()
    ensures { (text : List ℕ) (parts : List Part) → Says text parts → parts_of text ≡ Some parts }
{}

/// Doubled braces are braces: any text with its braces doubled is a template without names that spells the text.
pub fn doubled_braces_are_braces()
    ensures read { (names : List (List ℕ)) (text : List ℕ)
        → template_of names (text_of (map byte text)) ≡ Some (map byte text) }
    ensures spelled { (values : List (List ℕ × List ℕ)) (text : List ℕ) → spelled values (map byte text) ≡ text }
{}

/// The test of a kind says of a text just what `lg_params` reads: whether the text spells a value of the kind.
pub fn kinds_read_what_is_spelled()
    ensures { (kind : Kind) (text : List ℕ) → (reads kind text ≡ true) ↔ ((p : Param) × Spells kind text p) }
{}
