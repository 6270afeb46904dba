//! The reserved words.

ghost use Rattle.std.specs.Prelude.{◌≡◌};
ghost use Rattle.std.specs.Str.{str_eq_ignore_ascii_case};
ghost use Rattle.qf_lex.specs.Pieces.{is_reserved};

const RESERVED: [&[u8]; 18] = [
    b"update",
    b"set",
    b"where",
    b"delete",
    b"from",
    b"insert",
    b"into",
    b"values",
    b"and",
    b"or",
    b"not",
    b"between",
    b"in",
    b"null",
    b"select",
    b"begin",
    b"commit",
    b"rollback",
];

fn same_word(a: &[u8], b: &[u8]) -> bool
    ensures { result ≡ str_eq_ignore_ascii_case a.now b.now }
{
    a.eq_ignore_ascii_case(b)
}

/// Whether the bytes are a reserved word, in any case: a word of a log that is not reserved is a name.
/// The eighteen words are this program's own choice.
pub fn is_reserved(word: &[u8]) -> bool
    ensures { result ≡ is_reserved word.now }
{
    RESERVED.iter().any(|w| same_word(w, word))
}
