//! The lexemes of a log, from its tokens.

ghost use Rattle.std.specs.Prelude.{◌≡◌, ◌<◌, ◌^◌, [], length, map, IfOk, OnOk, IsUtf8};
ghost use Rattle.std.specs.Str.{IsAscii, str_to_ascii_lowercase};
ghost use Rattle.std.specs.String.{string_bytes};
ghost use Rattle.std.specs.List.{All};
ghost use Rattle.qf_ir.specs.Texts.{code_in, with_text};
ghost use Rattle.qf_lex.specs.Tokens.{StandsIn};
ghost use Rattle.qf_log.specs.Said as said;
ghost use Rattle.qf_log.specs.Said.{said_by, single_quoted};
ghost use Rattle.qf_log.specs.Lexed.{with_said, nothing_said, lexed_of, HasFew};

use crate::words::{key_of, mark_of, unquote};
use qf_base::{List, Name, NoMemory};
use qf_grammar::Lexeme;
use qf_ir::Texts;
use qf_lex::{Token, TokenKind};
use std::alloc::Global;
use std::str::from_utf8;

/// The lexemes of a log, with the names, texts and numbers that they speak of by their places.
#[derive(Drop)]
pub(crate) struct Lexed {
    pub names: List<Name>,
    pub texts: Texts,
    pub numbers: List<i64>,
    pub lexemes: List<Lexeme>,
}

/// Reads tokens into lexemes. The names stand once more in `index`, to be found by their text.
#[derive(Drop)]
struct Lexer {
    alloc: Global,
    index: Texts,
    folded: String,
    unquoted: Vec<u8>,
    lexed: Lexed,
}

impl Lexer {
    fn new(alloc: Global) -> Result<Lexer, NoMemory>
        ensures lexed { IfOk result (λ lexer. lexer.lexed ≡ nothing_said) }
        ensures index { IfOk result (λ lexer. lexer.index ≡ []) }
    {
        let index = Texts::new(alloc)?;
        let texts = Texts::new(alloc)?;
        Ok(Lexer {
            alloc,
            index,
            folded: String::new(alloc),
            unquoted: Vec::new(alloc),
            lexed: Lexed {
                names: List::new(alloc),
                texts,
                numbers: List::new(alloc),
                lexemes: List::new(alloc),
            },
        })
    }

    fn add_name(&mut self, word: &str) -> Result<(), NoMemory>
        requires index { self.old.index ≡ self.old.lexed.names }
        requires few { length self.old.lexed.names < 2 ^ 30 }
        requires ascii { IsAscii word.now }
        ensures lexed { OnOk result (self.new.lexed ≡ with_said self.old.lexed (said.name (str_to_ascii_lowercase word.now))) }
        ensures index { OnOk result (self.new.index ≡ self.new.lexed.names) }
    {
        fold(&mut self.folded, word)?;
        let number = self.index.code(self.folded.as_str())?;
        keep_name(self.alloc, &mut self.lexed.names, number, word)?;
        self.lexed.lexemes.push(Lexeme::Name(number))
    }

    fn add_number(&mut self, value: i64) -> Result<(), NoMemory>
        requires few { length self.old.lexed.numbers < 2 ^ 30 }
        ensures lexed { OnOk result (self.new.lexed ≡ with_said self.old.lexed (said.number value)) }
        ensures index { self.new.index ≡ self.old.index }
    {
        let number = self.lexed.numbers.len() as u32;
        self.lexed.numbers.push(value)?;
        self.lexed.lexemes.push(Lexeme::Number(number))
    }

    fn add_text(&mut self, body: &[u8]) -> Result<(), NoMemory>
        requires few { length self.old.lexed.texts < 2 ^ 30 }
        requires utf8 { IsUtf8 (single_quoted body.now) }
        ensures lexed { OnOk result (self.new.lexed ≡ with_said self.old.lexed (said.text (single_quoted body.now))) }
        ensures index { self.new.index ≡ self.old.index }
    {
        unquote(&mut self.unquoted, body)?;
        let Ok(text) = from_utf8(self.unquoted.as_slice()) else {
            unreachable!()
        };
        let number = self.lexed.texts.code(text)?;
        self.lexed.lexemes.push(Lexeme::Text(number))
    }

    fn add_mark(&mut self, symbol: &[u8]) -> Result<(), NoMemory>
        ensures lexed { OnOk result (self.new.lexed ≡ with_said self.old.lexed (said.mark (said.mark_of symbol.now))) }
        ensures index { self.new.index ≡ self.old.index }
    {
        self.lexed.lexemes.push(Lexeme::Mark(mark_of(symbol)))
    }

    fn add_word(&mut self, word: &[u8]) -> Result<(), NoMemory>
        requires index { self.old.index ≡ self.old.lexed.names }
        requires few { length self.old.lexed.names < 2 ^ 30 }
        requires ascii { IsAscii word.now }
        ensures lexed { OnOk result (self.new.lexed ≡ with_said self.old.lexed (said.word_said word.now (said.key_of word.now))) }
        ensures index { OnOk result (self.new.index ≡ self.new.lexed.names) }
    {
        if let Some(key) = key_of(word) {
            return self.lexed.lexemes.push(Lexeme::Key(key));
        }
        let Ok(name) = from_utf8(word) else {
            unreachable!()
        };
        self.add_name(name)
    }

    fn add(&mut self, bytes: &[u8], token: Token) -> Result<(), NoMemory>
        requires index { self.old.index ≡ self.old.lexed.names }
        requires few { HasFew (2 ^ 30) self.old.lexed }
        requires stands { StandsIn bytes.now token }
        ensures lexed { OnOk result (self.new.lexed ≡ with_said self.old.lexed (said_by bytes.now token)) }
        ensures index { OnOk result (self.new.index ≡ self.new.lexed.names) }
    {
        let text = &bytes[token.start as usize..token.end as usize];
        match token.kind {
            TokenKind::Word => self.add_word(text),
            TokenKind::Number(value) => self.add_number(value),
            TokenKind::Str => self.add_text(&text[1..text.len() - 1]),
            TokenKind::Symbol => self.add_mark(text),
        }
    }

    fn add_all(&mut self, bytes: &[u8], tokens: &[Token]) -> Result<(), NoMemory>
        requires lexed { self.old.lexed ≡ nothing_said }
        requires index { self.old.index ≡ [] }
        requires stand { All (StandsIn bytes.now) tokens.now }
        requires few { length tokens.now < 2 ^ 30 }
        ensures { OnOk result (self.new.lexed ≡ lexed_of (map (said_by bytes.now) tokens.now)) }
    {
        for token in tokens {
            self.add(bytes, *token)?;
        }
        Ok(())
    }
}

/// Adds the name with this number, where it is new.
fn keep_name(alloc: Global, names: &mut List<Name>, number: u32, word: &str) -> Result<(), NoMemory>
    requires ascii { IsAscii word.now }
    requires number { number ≡ code_in names.old (str_to_ascii_lowercase word.now) }
    ensures { OnOk result (names.new ≡ with_text names.old (str_to_ascii_lowercase word.now)) }
{
    if u64::from(number) == names.len() {
        return names.push(Name::new(alloc, word)?);
    }
    Ok(())
}

/// Makes `into` the word with its letters in lower case.
fn fold(into: &mut String, word: &str) -> Result<(), NoMemory>
    ensures { OnOk result (string_bytes into.new ≡ str_to_ascii_lowercase word.now) }
{
    into.clear();
    into.push_str(word)?;
    into.make_ascii_lowercase();
    Ok(())
}

/// The lexemes of the tokens of these bytes, with their names and texts in the order in which they are first seen.
pub(crate) fn lex(alloc: Global, bytes: &[u8], tokens: &[Token]) -> Result<Lexed, NoMemory>
    requires stand { All (StandsIn bytes.now) tokens.now }
    requires few { length tokens.now < 2 ^ 30 }
    ensures { IfOk result (λ lexed. lexed ≡ lexed_of (map (said_by bytes.now) tokens.now)) }
{
    let mut lexer = Lexer::new(alloc)?;
    match lexer.add_all(bytes, tokens) {
        Ok(()) => {
            let Lexer { lexed, .. } = lexer;
            Ok(lexed)
        }
        Err(fault) => {
            drop(lexer);
            Err(fault)
        }
    }
}
