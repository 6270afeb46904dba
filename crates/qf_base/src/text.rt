ghost use Rattle.std.specs.Prelude.{◌≡◌, IfOk};
ghost use Rattle.std.specs.Str.{IsAscii, str_to_ascii_lowercase};

use crate::NoMemory;
use std::alloc::Global;
use std::marker::Model;

/// A text in UTF-8, seen as its bytes.
#[derive(Debug, Drop)]
pub struct Text {
    text: String,
}

impl Model for Text {
    ghost use Rattle.std.specs.Prelude.{List, ℕ};
    ghost use Rattle.std.specs.String.{string_bytes};

    ghost Value = { List ℕ };

    ghost view = { λ t. string_bytes t.text };
}

impl Text {
    /// A text with the source's bytes.
    pub fn new(alloc: Global, source: &str) -> Result<Text, NoMemory>
        ensures { IfOk result (λ text. text ≡ source.now) }
    {
        Ok(Text {
            text: String::from_str(alloc, source)?,
        })
    }

    /// The text as a slice.
    pub fn as_str(&self) -> &str
        ensures { result.now ≡ self.now }
    {
        self.text.as_str()
    }
}

/// A name with its ASCII letters in lower case, seen as its bytes.
#[derive(Debug, Drop)]
pub struct Name {
    text: String,
}

impl Model for Name {
    ghost use Rattle.std.specs.Prelude.{List, ℕ};
    ghost use Rattle.std.specs.String.{string_bytes};

    ghost Value = { List ℕ };

    ghost view = { λ n. string_bytes n.text };
}

impl Name {
    /// The source with its letters in lower case.
    pub fn new(alloc: Global, source: &str) -> Result<Name, NoMemory>
        requires { IsAscii source.now }
        ensures { IfOk result (λ name. name ≡ str_to_ascii_lowercase source.now) }
    {
        let mut text = String::from_str(alloc, source)?;
        text.make_ascii_lowercase();
        Ok(Name { text })
    }

    /// An equal name.
    pub fn copy(&self, alloc: Global) -> Result<Name, NoMemory>
        ensures { IfOk result (λ name. name ≡ self.now) }
    {
        Ok(Name {
            text: String::from_str(alloc, self.text.as_str())?,
        })
    }

    /// The name as a slice.
    pub fn as_str(&self) -> &str
        ensures { result.now ≡ self.now }
    {
        self.text.as_str()
    }
}
