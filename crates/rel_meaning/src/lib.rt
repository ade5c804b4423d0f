//! What a query means over tables, without a plan: choose a row for each range variable, keep the choices that pass
//! the test, compute the targets and put the rows in order.
#![tactic(auto)]

mod answer;
mod evaluation;
mod expr;
mod meeting;
mod query;
mod view;

pub use answer::{answer_over, answer_plain, column_layout, target_values};
pub use evaluation::{column_value, evaluate};
pub use expr::{ArithOp, CompareOp, Expr};
pub use meeting::meets_view;
pub use query::{Database, Query, Table, Target, TargetList, Var, VarList};
pub use view::evaluate_view;
