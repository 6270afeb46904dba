//! What is behind a keyword at the front of the lexemes.

ghost use Rattle.std.specs.Prelude.{◌≡◌, option_map};
ghost use Rattle.qf_grammar.specs.Reading.{behind, is_update, is_set, is_where, is_delete, is_from, is_insert, is_into, is_values};

use crate::lexeme::{Key, Lexeme};

/// What is behind UPDATE.
pub(crate) fn behind_update(lexemes: &[Lexeme]) -> Option<&[Lexeme]>
    ensures { option_map (λ rest. rest.now) result ≡ behind is_update lexemes.now }
{
    match lexemes {
        [Lexeme::Key(Key::Update), rest @ ..] => Some(rest),
        _ => None,
    }
}

/// What is behind SET.
pub(crate) fn behind_set(lexemes: &[Lexeme]) -> Option<&[Lexeme]>
    ensures { option_map (λ rest. rest.now) result ≡ behind is_set lexemes.now }
{
    match lexemes {
        [Lexeme::Key(Key::Set), rest @ ..] => Some(rest),
        _ => None,
    }
}

/// What is behind WHERE.
pub(crate) fn behind_where(lexemes: &[Lexeme]) -> Option<&[Lexeme]>
    ensures { option_map (λ rest. rest.now) result ≡ behind is_where lexemes.now }
{
    match lexemes {
        [Lexeme::Key(Key::Where), rest @ ..] => Some(rest),
        _ => None,
    }
}

/// What is behind DELETE.
pub(crate) fn behind_delete(lexemes: &[Lexeme]) -> Option<&[Lexeme]>
    ensures { option_map (λ rest. rest.now) result ≡ behind is_delete lexemes.now }
{
    match lexemes {
        [Lexeme::Key(Key::Delete), rest @ ..] => Some(rest),
        _ => None,
    }
}

/// What is behind FROM.
pub(crate) fn behind_from(lexemes: &[Lexeme]) -> Option<&[Lexeme]>
    ensures { option_map (λ rest. rest.now) result ≡ behind is_from lexemes.now }
{
    match lexemes {
        [Lexeme::Key(Key::From), rest @ ..] => Some(rest),
        _ => None,
    }
}

/// What is behind INSERT.
pub(crate) fn behind_insert(lexemes: &[Lexeme]) -> Option<&[Lexeme]>
    ensures { option_map (λ rest. rest.now) result ≡ behind is_insert lexemes.now }
{
    match lexemes {
        [Lexeme::Key(Key::Insert), rest @ ..] => Some(rest),
        _ => None,
    }
}

/// What is behind INTO.
pub(crate) fn behind_into(lexemes: &[Lexeme]) -> Option<&[Lexeme]>
    ensures { option_map (λ rest. rest.now) result ≡ behind is_into lexemes.now }
{
    match lexemes {
        [Lexeme::Key(Key::Into), rest @ ..] => Some(rest),
        _ => None,
    }
}

/// What is behind VALUES.
pub(crate) fn behind_values(lexemes: &[Lexeme]) -> Option<&[Lexeme]>
    ensures { option_map (λ rest. rest.now) result ≡ behind is_values lexemes.now }
{
    match lexemes {
        [Lexeme::Key(Key::Values), rest @ ..] => Some(rest),
        _ => None,
    }
}
