//! Templates: texts in which names stand between braces, and braces of the text are doubled. This project's own.
ghost use Rattle.std.specs.Prelude.{◌≡◌, IfOk};
ghost use Rattle.std.specs.List.{list_all};
ghost use Rattle.lg_declare.specs.Answers.{Gives};
ghost use Rattle.lg_declare.specs.Pieces.{parts_of_piece, parts_of_pieces};
ghost use Rattle.lg_declare.specs.Template.{template_of, spelled, is_usable};

use crate::fault::TemplateFault;
use crate::piece::Piece;
use crate::reader::read_pieces;
use lg_base::{Name, NoMemory, Text};
use std::alloc::Global;
use std::marker::Model;

/// A template. Contracts see its parts: bytes that stand for themselves, and words that stand for values.
#[derive(Debug, Drop)]
pub struct Template {
    pieces: Vec<Piece>,
}

impl Model for Template {
    ghost use Rattle.std.specs.Prelude.{List};
    ghost use Rattle.lg_declare.specs.Template.{Part};
    ghost use Rattle.lg_declare.specs.Pieces.{parts_of_pieces};

    ghost Value = { List Part };

    ghost view = { λ t. parts_of_pieces t.pieces.items };
}

impl Template {
    /// The template that a text is: `{name}` stands for the value of a name, `{{` and `}}` for braces. It is refused
    /// exactly where a brace has no partner, or a word between braces is none of the names; or memory ran out.
    pub fn read(alloc: Global, text: &Text, names: &[Name]) -> Result<Template, TemplateFault>
        ensures { Gives result (template_of names.now text.now) }
    {
        let pieces = read_pieces(alloc, text.as_str())?;
        if !are_usable(&pieces, names) {
            return Err(TemplateFault::BadTemplate);
        }
        Ok(Template { pieces })
    }

    /// What the template spells for values: each text itself, and for each name the first value that it has. Only want
    /// of memory is refused.
    pub fn spell(&self, alloc: Global, values: &[(Name, Text)]) -> Result<Text, NoMemory>
        ensures { IfOk result (λ text. text ≡ spelled values.now self.now) }
    {
        spell_pieces(alloc, &self.pieces, values)
    }
}

/// Whether each name in the pieces is among these.
fn are_usable(pieces: &[Piece], names: &[Name]) -> bool
    ensures { result ≡ list_all (is_usable names.now) (parts_of_pieces pieces.now) }
{
    each_is_usable(pieces, names)
}

/// The same, piece by piece.
fn each_is_usable(pieces: &[Piece], names: &[Name]) -> bool
    ensures { result ≡ list_all (λ piece. list_all (is_usable names.now) (parts_of_piece piece)) pieces.now }
{
    pieces.iter().all(|piece| piece.is_usable(names))
}

/// What pieces spell, one behind another.
fn spell_pieces(alloc: Global, pieces: &[Piece], values: &[(Name, Text)]) -> Result<Text, NoMemory>
    ensures { IfOk result (λ text. text ≡ spelled values.now (parts_of_pieces pieces.now)) }
{
    let mut spelled = String::new(alloc);
    for piece in pieces {
        spelled.push_str(piece.value_in(values))?;
    }
    Ok(Text::from_string(spelled))
}
