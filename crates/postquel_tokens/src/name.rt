//! The names that mean something to the readers of scripts and catalogues.

ghost use Rattle.std.specs.Prelude.{◌≡◌, map};
ghost use Rattle.postquel_tokens.specs.Names as spec;

/// A name that no variable, column or relation may have.
#[derive(Clone, Copy, Debug, PartialEq, Eq)]
pub enum Key {
    Retrieve,
    Unique,
    From,
    In,
    Where,
    Sort,
    By,
    Using,
    And,
    Or,
    Not,
    True,
    False,
    All,
    Into,
    Null,
    Is,
    Machine,
}

const KEYS: [(&[u8], Key); 18] = [
    (b"retrieve", Key::Retrieve),
    (b"unique", Key::Unique),
    (b"from", Key::From),
    (b"in", Key::In),
    (b"where", Key::Where),
    (b"sort", Key::Sort),
    (b"by", Key::By),
    (b"using", Key::Using),
    (b"and", Key::And),
    (b"or", Key::Or),
    (b"not", Key::Not),
    (b"true", Key::True),
    (b"false", Key::False),
    (b"all", Key::All),
    (b"into", Key::Into),
    (b"null", Key::Null),
    (b"is", Key::Is),
    (b"machine", Key::Machine),
];

const FOLDS: [&[u8]; 4] = [b"count", b"min", b"max", b"sum"];

/// The key that a name is, if it is one.
#[tactic(auto, unfolding(crate::specs::Names::key_of))]
pub fn key_of(text: &[u8]) -> Option<Key>
    ensures { result ≡ spec.key_of text.now }
{
    find(&KEYS, text)
}

/// Whether a name is that of a fold, where a parenthesis follows it.
pub fn is_fold(text: &[u8]) -> bool
    ensures { result ≡ spec.is_fold text.now }
{
    is_among(&FOLDS, text)
}

fn find(mut table: &[(&[u8], Key)], text: &[u8]) -> Option<Key>
    ensures { result ≡ spec.lookup (map (λ k. (k.0.now, k.1)) table.entry.now) text.now }
{
    while let [entry, rest @ ..] = table {
        if entry.0 == text {
            return Some(entry.1);
        }
        table = rest;
    }
    None
}

fn is_among(mut names: &[&[u8]], text: &[u8]) -> bool
    ensures { result ≡ spec.is_among (map (λ k. k.now) names.entry.now) text.now }
{
    while let [first, rest @ ..] = names {
        if *first == text {
            return true;
        }
        names = rest;
    }
    false
}
