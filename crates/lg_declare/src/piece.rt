ghost use Rattle.std.specs.Prelude.{◌≡◌, find};
ghost use Rattle.std.specs.Option.{option_copied};
ghost use Rattle.std.specs.Str.{bytes_eq};
ghost use Rattle.std.specs.List.{list_all};
ghost use Rattle.lg_declare.specs.Pieces.{parts_of_piece};
ghost use Rattle.lg_declare.specs.Template.{is_among, is_usable, spelled, value_of};

use lg_base::{Name, Text};

/// A piece of a template.
#[derive(Debug, Drop)]
pub(crate) enum Piece {
    /// A text that stands for itself.
    Literal(Text),
    /// A name that stands for its value.
    Word(Name),
}

impl Piece {
    /// Whether each name in it is among these.
    pub(crate) fn is_usable(&self, names: &[Name]) -> bool
        ensures { result ≡ list_all (is_usable names.now) (parts_of_piece self.now) }
    {
        match self {
            Piece::Literal(_) => true,
            Piece::Word(word) => is_among(names, word.as_str()),
        }
    }

    /// What it spells.
    pub(crate) fn value_in<'a>(&'a self, values: &'a [(Name, Text)]) -> &'a str
        ensures { result.now ≡ spelled values.now (parts_of_piece self.entry.now) }
    {
        match self {
            Piece::Literal(text) => text.as_str(),
            Piece::Word(word) => value_of(word.as_str(), values),
        }
    }
}

/// Whether a text is one of the names.
fn is_among(names: &[Name], text: &str) -> bool
    ensures { result ≡ is_among names.now text.now }
{
    names.iter().any(|name| name.as_str() == text)
}

/// The first value of a name; nothing where it has none.
fn value_of<'a>(name: &str, values: &'a [(Name, Text)]) -> &'a str
    ensures { result.now ≡ value_of values.now name.now }
{
    match pair_of(name, values) {
        Some(pair) => pair.1.as_str(),
        None => "",
    }
}

/// The first value of a name, with it.
fn pair_of<'a>(name: &str, values: &'a [(Name, Text)]) -> Option<&'a (Name, Text)>
    ensures { option_copied result ≡ find (λ pair. bytes_eq pair.0 name.now) values.now }
{
    values.iter().find(|pair| pair.0.as_str() == name)
}
