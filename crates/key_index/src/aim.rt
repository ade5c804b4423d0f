use rows::Value;

/// What a search counts: the entries with a smaller key, those with a key at most this one, or those up to a number.
#[derive(Clone, Copy)]
pub enum Aim<'a> {
    Below(&'a Value),
    UpTo(&'a Value),
    Number(u32),
}
