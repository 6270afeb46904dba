//! What the texts of tokens say.

ghost use Rattle.std.specs.Prelude.{◌≡◌, OnOk, map, option_map};
ghost use Rattle.std.specs.Str.{str_eq_ignore_ascii_case};
ghost use Rattle.qf_log.specs.Said.{entry_of, key_in, key_of, mark_of_one, mark_of_two, mark_of, next_quoted, single_quoted};

use qf_base::NoMemory;
use qf_grammar::{Key, Mark};

const KEYS: [(&[u8], Key); 18] = [
    (b"update", Key::Update),
    (b"set", Key::Set),
    (b"where", Key::Where),
    (b"delete", Key::Delete),
    (b"from", Key::From),
    (b"insert", Key::Insert),
    (b"into", Key::Into),
    (b"values", Key::Values),
    (b"and", Key::And),
    (b"or", Key::Or),
    (b"not", Key::Not),
    (b"between", Key::Between),
    (b"in", Key::In),
    (b"null", Key::Null),
    (b"select", Key::Select),
    (b"begin", Key::Begin),
    (b"commit", Key::Commit),
    (b"rollback", Key::Rollback),
];

fn same_word(a: &[u8], b: &[u8]) -> bool
    ensures { result ≡ str_eq_ignore_ascii_case a.now b.now }
{
    a.eq_ignore_ascii_case(b)
}

/// The keyword of the first entry with this word.
fn find_key(entries: &[(&[u8], Key)], word: &[u8]) -> Option<Key>
    ensures { result ≡ key_in (map entry_of entries.now) word.now }
{
    for entry in entries {
        if same_word(entry.0, word) {
            return Some(entry.1);
        }
    }
    None
}

/// The keyword that a word is, in any case; none where it is a name.
pub(crate) fn key_of(word: &[u8]) -> Option<Key>
    ensures { result ≡ key_of word.now }
{
    find_key(&KEYS, word)
}

fn mark_of_one(byte: u8) -> Mark
    ensures { result ≡ mark_of_one byte }
{
    match byte {
        b'(' => Mark::Open,
        b')' => Mark::Close,
        b',' => Mark::Comma,
        b';' => Mark::Semicolon,
        b'=' => Mark::Equal,
        b'<' => Mark::Less,
        b'>' => Mark::Greater,
        b'+' => Mark::Plus,
        b'-' => Mark::Minus,
        _ => Mark::Star,
    }
}

fn mark_of_two(first: u8, second: u8) -> Mark
    ensures { result ≡ mark_of_two first second }
{
    match (first, second) {
        (b'<', b'=') => Mark::LessEqual,
        (b'>', b'=') => Mark::GreaterEqual,
        _ => Mark::Unequal,
    }
}

/// The symbol with this text.
pub(crate) fn mark_of(symbol: &[u8]) -> Mark
    ensures { result ≡ mark_of symbol.now }
{
    match symbol {
        [] => Mark::Star,
        [byte] => mark_of_one(*byte),
        [first, second, ..] => mark_of_two(*first, *second),
    }
}

/// The byte at the front, one for two quotes, and what is behind it.
fn next_quoted(body: &[u8]) -> Option<(u8, &[u8])>
    ensures { option_map (λ p. (p.0, p.1.now)) result ≡ next_quoted body.now }
{
    match body {
        [b'\'', b'\'', rest @ ..] => Some((b'\'', rest)),
        [first, rest @ ..] => Some((*first, rest)),
        [] => None,
    }
}

/// Makes `into` the body with one quote for each two.
pub(crate) fn unquote(into: &mut Vec<u8>, body: &[u8]) -> Result<(), NoMemory>
    ensures { OnOk result (into.new.items ≡ single_quoted body.now) }
{
    into.clear();
    let mut rest = body;
    while let Some((byte, after)) = next_quoted(rest) {
        into.push(byte)?;
        rest = after;
    }
    Ok(())
}
