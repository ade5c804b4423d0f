use crate::Expr;
use lists::Sequence;
use rows::{ColumnList, Rows, SortKeyList, Text};

/// A range variable.
#[derive(Debug, Drop)]
pub struct Var {
    pub name: Text,
    pub relation: u32,
}

/// A column of the answer.
#[derive(Drop)]
pub struct Target {
    pub name: Text,
    pub expr: Expr,
}

pub type VarList = Sequence<Var>;

pub type TargetList = Sequence<Target>;

/// A resolved statement.
#[derive(Drop)]
pub struct Query {
    pub vars: VarList,
    pub targets: TargetList,
    pub test: Option<Expr>,
    pub unique: bool,
    pub keys: SortKeyList,
}

/// A relation's columns and its rows in the order of its file.
#[derive(Drop)]
pub struct Table {
    pub columns: ColumnList,
    pub rows: Rows,
}

pub type Database = Sequence<Table>;
