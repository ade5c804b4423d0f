//! How tightly operators bind.

ghost use Rattle.std.specs.Prelude.{◌≡◌};
ghost use Rattle.postquel.specs.Level as spec;

use crate::class::{Class, Key};
use postquel_tokens::{BinaryOp, Sign, UnaryOp};

#[derive(Clone, Copy, Debug, PartialEq, Eq)]
pub enum Level {
    Or,
    And,
    Not,
    Comparison,
    Sum,
    Product,
    Sign,
    Atom,
}

impl Level {
    /// The level of an operand.
    pub fn next(self) -> Level
        ensures { result ≡ spec.next self }
    {
        match self {
            Level::Or => Level::And,
            Level::And => Level::Not,
            Level::Not => Level::Comparison,
            Level::Comparison => Level::Sum,
            Level::Sum => Level::Product,
            Level::Product => Level::Sign,
            Level::Sign | Level::Atom => Level::Atom,
        }
    }

    /// The operator between two operands that this token is at this level.
    pub fn between(self, class: Class) -> Option<BinaryOp>
        ensures { result ≡ spec.between self class }
    {
        match (self, class) {
            (Level::Or, Class::Key(Key::Or)) => Some(BinaryOp::Or),
            (Level::And, Class::Key(Key::And)) => Some(BinaryOp::And),
            (Level::Comparison, Class::Mark(sign)) => comparison(sign),
            (Level::Sum, Class::Mark(Sign::Plus)) => Some(BinaryOp::Add),
            (Level::Sum, Class::Mark(Sign::Minus)) => Some(BinaryOp::Sub),
            (Level::Product, Class::Mark(Sign::Times)) => Some(BinaryOp::Mul),
            _ => None,
        }
    }

    /// The operator before an operand that this token is at this level.
    pub fn before(self, class: Class) -> Option<UnaryOp>
        ensures { result ≡ spec.before self class }
    {
        match (self, class) {
            (Level::Not, Class::Key(Key::Not)) => Some(UnaryOp::Not),
            (Level::Sign, Class::Mark(Sign::Minus)) => Some(UnaryOp::Negate),
            _ => None,
        }
    }
}

fn comparison(sign: Sign) -> Option<BinaryOp>
    ensures { result ≡ spec.comparison sign }
{
    match sign {
        Sign::Equal => Some(BinaryOp::Equal),
        Sign::NotEqual => Some(BinaryOp::NotEqual),
        Sign::Less => Some(BinaryOp::Less),
        Sign::AtMost => Some(BinaryOp::AtMost),
        Sign::More => Some(BinaryOp::More),
        Sign::AtLeast => Some(BinaryOp::AtLeast),
        _ => None,
    }
}
