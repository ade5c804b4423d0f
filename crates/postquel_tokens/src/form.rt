//! The forms of a script, without its parentheses.

use crate::Spot;
use lists::Sequence;
use rows::Text;

/// A name and its place.
#[derive(Debug, Drop)]
pub struct Ident {
    pub text: Text,
    pub spot: Spot,
}

/// An operator before its operand.
#[derive(Clone, Copy, Debug, PartialEq, Eq)]
pub enum UnaryOp {
    Not,
    Negate,
}

/// An operator between its operands.
#[derive(Clone, Copy, Debug, PartialEq, Eq)]
pub enum BinaryOp {
    Or,
    And,
    Equal,
    NotEqual,
    Less,
    AtMost,
    More,
    AtLeast,
    Add,
    Sub,
    Mul,
}

/// An expression. The place of an operator is that of its token, and of `IsNull` that of `is`.
#[derive(Drop)]
pub enum Form {
    Number(i64),
    Word(Text),
    Truth(bool),
    Dotted {
        var: Ident,
        col: Ident,
    },
    Unary {
        op: UnaryOp,
        spot: Spot,
        operand: Box<Form>,
    },
    Binary {
        op: BinaryOp,
        spot: Spot,
        left: Box<Form>,
        right: Box<Form>,
    },
    IsNull {
        spot: Spot,
        operand: Box<Form>,
        negated: bool,
    },
}

/// A target: a named expression, all columns of a variable, one column, or a fold over an expression.
#[derive(Drop)]
pub enum TargetForm {
    Named {
        name: Ident,
        form: Form,
    },
    All {
        var: Ident,
    },
    Dotted {
        var: Ident,
        col: Ident,
    },
    Fold {
        name: Ident,
        fold: Ident,
        form: Form,
    },
}

pub type TargetFormList = Sequence<TargetForm>;

/// A range variable and its relation.
#[derive(Debug, Drop)]
pub struct RangeForm {
    pub var: Ident,
    pub relation: Ident,
}

pub type RangeFormList = Sequence<RangeForm>;

/// A qualification, and the place of `where`.
#[derive(Drop)]
pub struct TestForm {
    pub spot: Spot,
    pub form: Form,
}

/// A sort key: the target's name, and whether greater values come first.
#[derive(Debug, Drop)]
pub struct KeyForm {
    pub target: Ident,
    pub down: bool,
}

pub type KeyFormList = Sequence<KeyForm>;

/// The relation that keeps an answer, and the place of `into`.
#[derive(Debug, Drop)]
pub struct IntoForm {
    pub spot: Spot,
    pub name: Ident,
}

/// A step of the machine line: so many backends after so many fragments, each with its place.
#[derive(Clone, Copy, Debug, PartialEq, Eq)]
pub struct StepForm {
    pub backends: i64,
    pub backends_spot: Spot,
    pub after: i64,
    pub after_spot: Spot,
}

pub type StepFormList = Sequence<StepForm>;

/// A statement.
#[derive(Drop)]
pub struct Statement {
    pub unique: bool,
    pub into: Option<IntoForm>,
    pub targets: TargetFormList,
    pub ranges: RangeFormList,
    pub test: Option<TestForm>,
    pub keys: KeyFormList,
}

pub type StatementList = Sequence<Statement>;
