//! The limits on statements.

ghost use Rattle.std.specs.Prelude.{◌≡◌, None};
ghost use Rattle.postquel.specs.Limits as spec;

use crate::class::{Class, Key};
use postquel_tokens::{Sign, What};

const MAX_TOKENS: u32 = 1000;

const MAX_STATEMENTS: u32 = 16;

/// The tokens of the statement so far, and the statements begun.
#[derive(Clone, Copy, Debug)]
pub struct Counts {
    pub tokens: u32,
    pub statements: u32,
}

impl Counts {
    /// The limit that a token would pass.
    pub fn barred(self, class: Class) -> Option<What>
        ensures { result ≡ spec.barred self class }
    {
        if self.tokens >= MAX_TOKENS {
            return Some(What::StatementTooLong);
        }
        match class {
            Class::Key(Key::Retrieve) if self.tokens == 0 && self.statements >= MAX_STATEMENTS => {
                Some(What::TooManyStatements)
            }
            _ => None,
        }
    }

    pub fn after(self, class: Class) -> Counts
        requires { spec.barred self class ≡ None }
        ensures { result ≡ spec.after self class }
    {
        match class {
            Class::Mark(Sign::Go) => Counts {
                tokens: 0,
                statements: self.statements,
            },
            Class::Key(Key::Retrieve) if self.tokens == 0 => Counts {
                tokens: 1,
                statements: self.statements + 1,
            },
            _ => Counts {
                tokens: self.tokens + 1,
                statements: self.statements,
            },
        }
    }
}
