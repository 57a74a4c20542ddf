//! Reading a text as the pieces of a template, one character after another.
ghost use Rattle.std.specs.Prelude.{◌≡◌, List, ℕ, OnOk, IfOk, ◌++◌, [], ◌∷◌, encode_utf8};
ghost use Rattle.std.specs.String.{string_bytes};
ghost use Rattle.lg_declare.specs.Answers.{Gives};
ghost use Rattle.lg_declare.specs.Pieces.{parts_of_pieces};
ghost use Rattle.lg_declare.specs.Template.{parts_of, parts_from, at_end, behind, outside};
ghost use Rattle.lg_declare.specs.Reader.{standing_at, parts_in, resumed, Takes, pieces_of};
ghost use Rattle.lg_declare.specs.declared.reader.Place.TheVariants.{Outside, Opened, Inside, Closed};

use crate::fault::TemplateFault;
use crate::piece::Piece;
use lg_base::{Name, Text};
use std::alloc::Global;
use std::mem;

/// The pieces that a text says, its words not looked at yet.
pub(crate) fn read_pieces(alloc: Global, text: &str) -> Result<Vec<Piece>, TemplateFault>
    ensures { Gives (pieces_of result) (parts_of text.now) }
{
    let mut reader = Reader::new(alloc);
    for c in text.chars() {
        reader.take(c)?;
    }
    reader.finish()
}

/// Where in a template the next character stands.
#[derive(Clone, Copy)]
enum Place {
    Outside,
    /// Behind a brace that opens a word, or is doubled.
    Opened,
    /// In a word.
    Inside,
    /// Behind a closing brace that has to be doubled.
    Closed,
}

/// What was read of a template.
#[derive(Drop)]
struct Reader {
    alloc: Global,
    /// The whole pieces, up to the last word.
    pieces: Vec<Piece>,
    /// What stands for itself behind them.
    literal: String,
    /// What was read of the word, in a word.
    word: String,
    place: Place,
}

impl Reader {
    fn new(alloc: Global) -> Reader
        ensures { (rest : List ℕ) → resumed result rest ≡ parts_from outside rest }
    {
        Reader {
            alloc,
            pieces: Vec::new(alloc),
            literal: String::new(alloc),
            word: String::new(alloc),
            place: Place::Outside,
        }
    }

    /// One character more.
    fn take(&mut self, c: char) -> Result<(), TemplateFault>
        ensures { Takes self.old c self.new result }
    {
        match self.place {
            Place::Outside => self.take_outside(c),
            Place::Opened => self.take_opened(c),
            Place::Inside => self.take_inside(c),
            Place::Closed => self.take_closed(c),
        }
    }

    fn take_outside(&mut self, c: char) -> Result<(), TemplateFault>
        requires { self.old.place ≡ Outside }
        ensures { Takes self.old c self.new result }
    {
        match c {
            '{' => self.place = Place::Opened,
            '}' => self.place = Place::Closed,
            _ => self.literal.push(c)?,
        }
        Ok(())
    }

    fn take_opened(&mut self, c: char) -> Result<(), TemplateFault>
        requires { self.old.place ≡ Opened }
        ensures { Takes self.old c self.new result }
    {
        if c == '{' {
            self.place = Place::Outside;
            self.literal.push(c)?;
            return Ok(());
        }
        self.word.clear();
        self.place = Place::Inside;
        self.take_inside(c)
    }

    fn take_inside(&mut self, c: char) -> Result<(), TemplateFault>
        requires { self.old.place ≡ Inside }
        ensures { Takes self.old c self.new result }
    {
        match c {
            '}' => self.end_word(),
            '{' => Err(TemplateFault::BadTemplate),
            _ => Ok(self.word.push(c)?),
        }
    }

    fn take_closed(&mut self, c: char) -> Result<(), TemplateFault>
        requires { self.old.place ≡ Closed }
        ensures { Takes self.old c self.new result }
    {
        if c != '}' {
            return Err(TemplateFault::BadTemplate);
        }
        self.place = Place::Outside;
        Ok(self.literal.push(c)?)
    }

    /// The word is whole: it becomes a piece, and so does what stood for itself before it.
    fn end_word(&mut self) -> Result<(), TemplateFault>
        requires { self.old.place ≡ Inside }
        ensures { Takes self.old 125 self.new result }
    {
        let literal = mem::replace(&mut self.literal, String::new(self.alloc));
        let word = mem::replace(&mut self.word, String::new(self.alloc));
        self.place = Place::Outside;
        self.pieces
            .push(Piece::Literal(Text::from_string(literal)))?;
        let name = Name::from(Text::from_string(word));
        Ok(self.pieces.push(Piece::Word(name))?)
    }

    /// The text is over.
    fn finish(self) -> Result<Vec<Piece>, TemplateFault>
        ensures { Gives (pieces_of result) (resumed self []) }
    {
        let Reader {
            mut pieces,
            literal,
            place,
            ..
        } = self;
        let Place::Outside = place else {
            return Err(TemplateFault::BadTemplate);
        };
        pieces.push(Piece::Literal(Text::from_string(literal)))?;
        Ok(pieces)
    }
}
