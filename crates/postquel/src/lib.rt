//! The language of scripts: how tokens are read as a script, and how a script prints.
#![tactic(auto)]

mod class;
mod counts;
mod cursor;
mod expression_text;
mod grammar;
mod level;
mod parser;
mod printing;
mod script;
mod statement;

pub use parser::{one_reading, parse};
pub use postquel_tokens::{
    BinaryOp, Form, Ident, IntoForm, KeyForm, KeyFormList, RangeForm, RangeFormList, Sign, Spot,
    Statement, StatementList, StepForm, StepFormList, TargetForm, TargetFormList, TestForm,
    TextErr, Token, TokenKind, TokenList, UnaryOp, What, lex,
};
pub use printing::print;
pub use script::Script;

#[cfg(test)]
mod tests;
