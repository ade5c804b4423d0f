//! A whole script.

ghost use Rattle.std.specs.Prelude.{◌≡◌, ◌<◌, length, slice_get};

use lists::Sequence;
use postquel_tokens::{Statement, StatementList, StepForm, StepFormList};
use std::marker::Model;

/// The steps of the machine line and the statements of a script. `parse` alone makes one.
#[derive(Drop)]
pub struct Script {
    steps: StepFormList,
    statements: StatementList,
}

impl Model for Script {
    ghost use Rattle.postquel.specs.Program.{Parts};
    ghost use Rattle.postquel_tokens.specs.contracts.form.Form as form;
    ghost use Rattle.std.specs.Coded.{codes};

    ghost Value = { Parts };

    ghost coded = { Prim.hlevel (codes, form.the_row.coded) };

    ghost view = { λ it. record { steps = it.steps; statements = it.statements } };
}

impl Script {
    pub(crate) fn new(steps: Vec<StepForm>, statements: Vec<Statement>) -> Script
        ensures { result ≡ record { steps = steps.items; statements = statements.items } }
    {
        Script {
            steps: Sequence::from_vec(steps),
            statements: Sequence::from_vec(statements),
        }
    }

    pub(crate) fn statements(&self) -> &[Statement]
        ensures { result.now ≡ self.now.statements }
    {
        self.statements.items()
    }

    /// The steps of the machine line. There are none exactly where there is no machine line.
    pub fn machine(&self) -> &StepFormList
        ensures { result.now ≡ self.now.steps }
    {
        &self.steps
    }

    /// How many statements there are.
    pub fn len(&self) -> usize
        ensures { result ≡ length self.now.statements }
    {
        self.statements.len()
    }

    /// A statement by its place, from 0.
    pub fn get(&self, place: usize) -> &Statement
        requires { place < length self.now.statements }
        ensures { slice_get self.now.statements place ≡ Some result.now }
    {
        self.statements.get(place)
    }
}
