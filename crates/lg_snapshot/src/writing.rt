//! Writing a snapshot piece by piece behind what is written.
ghost use Rattle.std.specs.Prelude.{◌≡◌, [], ◌∷◌, ◌++◌, All, OnOk, IsUtf8};
ghost use Rattle.lg_json.specs.Text.{quoted, text_of, member_text};
ghost use Rattle.lg_snapshot.specs.Commas.{comma_if};
ghost use Rattle.lg_snapshot.specs.Holding.{IsHeld};
ghost use Rattle.lg_snapshot.specs.Trees.{listed, by_name};

use lg_base::{Name, NoMemory, Text};
use lg_json::quote;
use std::alloc::Global;
use std::marker::Model;

/// What is written so far. Contracts see its bytes.
#[derive(Drop)]
pub(crate) struct Output {
    alloc: Global,
    text: String,
}

impl Model for Output {
    ghost use Rattle.std.specs.Prelude.{List, ℕ, string_bytes};

    ghost Value = { List ℕ };

    ghost view = { λ output. string_bytes output.text };
}

/// A value that has a place in a snapshot. Where memory runs out, what was written is of no more use.
pub(crate) trait Written {
    ghost use Rattle.lg_json.specs.Tree.{Tree};

    ghost tree: { Self → Tree };

    /// What the type bounds, beyond what memory holds of each tree.
    ghost fits: { Self → Type 0 } = { λ _. Unit {0} };

    /// Writes the value behind what is written. So the value is one that memory holds.
    fn write(&self, output: &mut Output) -> Result<(), NoMemory>
        ensures written { OnOk result (output.new ≡ output.old ++ text_of (tree self.now)) }
        ensures held { OnOk result (IsHeld (tree self.now) × fits self.now) };
}

impl Output {
    /// Nothing is written yet. It takes no memory.
    pub(crate) fn new(alloc: Global) -> Output
        ensures { result ≡ [] }
    {
        Output {
            alloc,
            text: String::new(alloc),
        }
    }

    /// What was written, as a text. It takes no memory.
    pub(crate) fn into_text(self) -> Text
        ensures { result ≡ self }
    {
        Text::from_string(self.text)
    }

    /// Writes a word as it stands.
    pub(crate) fn word(&mut self, word: &str) -> Result<(), NoMemory>
        ensures { OnOk result (self.new ≡ self.old ++ word.now) }
    {
        self.text.push_str(word)?;
        Ok(())
    }

    /// Writes a text between quotes, with its escapes.
    pub(crate) fn quoted(&mut self, text: &str) -> Result<(), NoMemory>
        ensures written { OnOk result (self.new ≡ self.old ++ quoted text.now) }
        ensures utf8 { IsUtf8 text.now }
    {
        let quoted = quote(self.alloc, text)?;
        self.text.push_str(quoted.as_str())?;
        Ok(())
    }

    /// Writes a name, a colon and a value.
    pub(crate) fn member<T: Written>(&mut self, name: &str, value: &T) -> Result<(), NoMemory>
        ensures written { OnOk result (self.new ≡ self.old ++ member_text name.now (T.tree value.now)) }
        ensures held { OnOk result (IsUtf8 name.now × IsHeld (T.tree value.now) × T.fits value.now) }
    {
        self.quoted(name)?;
        self.word(":")?;
        value.write(self)
    }

    /// Begins an object with its first member.
    pub(crate) fn first<T: Written>(&mut self, name: &str, value: &T) -> Result<(), NoMemory>
        ensures written { OnOk result (self.new ≡ self.old ++ 123 ∷ member_text name.now (T.tree value.now)) }
        ensures held { OnOk result (IsUtf8 name.now × IsHeld (T.tree value.now) × T.fits value.now) }
    {
        self.word("{")?;
        self.member(name, value)
    }

    /// Goes on with the next member.
    pub(crate) fn next<T: Written>(&mut self, name: &str, value: &T) -> Result<(), NoMemory>
        ensures written { OnOk result (self.new ≡ self.old ++ 44 ∷ member_text name.now (T.tree value.now)) }
        ensures held { OnOk result (IsUtf8 name.now × IsHeld (T.tree value.now) × T.fits value.now) }
    {
        self.word(",")?;
        self.member(name, value)
    }

    /// Ends an object.
    pub(crate) fn end(&mut self) -> Result<(), NoMemory>
        ensures { OnOk result (self.new ≡ self.old ++ 125 ∷ []) }
    {
        self.word("}")
    }

    // A comma, where something stands before.
    fn comma(&mut self, later: bool) -> Result<(), NoMemory>
        ensures { OnOk result (self.new ≡ self.old ++ comma_if later) }
    {
        self.word(if later { "," } else { "" })
    }

    /// Writes a list.
    pub(crate) fn list<T: Written>(&mut self, items: &[T]) -> Result<(), NoMemory>
        ensures written { OnOk result (self.new ≡ self.old ++ text_of (listed T.tree items.now)) }
        ensures held { OnOk result (IsHeld (listed T.tree items.now) × All T.fits items.now) }
    {
        self.word("[")?;
        let mut later = false;
        for item in items {
            self.comma(later)?;
            item.write(self)?;
            later = true;
        }
        self.word("]")
    }

    /// Writes an object of values by name.
    pub(crate) fn object<T: Written>(&mut self, pairs: &[(Name, T)]) -> Result<(), NoMemory>
        ensures written { OnOk result (self.new ≡ self.old ++ text_of (by_name T.tree pairs.now)) }
        ensures held { OnOk result (IsHeld (by_name T.tree pairs.now) × All (λ pair. T.fits pair.1) pairs.now) }
    {
        self.word("{")?;
        let mut later = false;
        for (name, value) in pairs {
            self.comma(later)?;
            self.member(name.as_str(), value)?;
            later = true;
        }
        self.word("}")
    }
}
