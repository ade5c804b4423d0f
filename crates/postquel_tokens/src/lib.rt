//! The tokens of scripts and catalogues, the forms that a script is made of, and the faults of both.
#![tactic(auto)]

mod fault;
mod form;
mod lexer;
mod name;
mod piece;
mod token;

pub use fault::{Spot, TextErr, What};
pub use form::{
    BinaryOp, Form, Ident, IntoForm, KeyForm, KeyFormList, RangeForm, RangeFormList, Statement,
    StatementList, StepForm, StepFormList, TargetForm, TargetFormList, TestForm, UnaryOp,
};
pub use lexer::lex;
pub use name::{Key, is_fold, key_of};
pub use token::{Sign, Token, TokenKind, TokenList};

#[cfg(test)]
mod tests;
