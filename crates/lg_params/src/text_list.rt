ghost use Rattle.std.specs.Prelude.{◌≡◌, List, ℕ};

use lg_base::Text;
use std::marker::Model;

/// A list of texts. Contracts see the list of their bytes.
#[derive(Debug, Drop)]
pub struct TextList {
    inner: Vec<Text>,
}

impl Model for TextList {
    ghost Value = { List (List ℕ) };

    ghost view = { λ l. l.inner.items };
}

impl TextList {
    /// The list that a `Vec` holds. It takes no memory.
    pub fn from_vec(texts: Vec<Text>) -> TextList
        ensures { result ≡ texts.items }
    {
        TextList { inner: texts }
    }

    /// The texts.
    pub fn texts(&self) -> &[Text]
        ensures { result.now ≡ self.now }
    {
        &self.inner
    }

    /// The texts in a `Vec`. It takes no memory.
    pub fn into_vec(self) -> Vec<Text>
        ensures { result.items ≡ self }
    {
        self.inner
    }
}
