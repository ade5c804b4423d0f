use plan_tree::Method;
use rows::Machine;

/// What is made of the statements of a script and the tables of its catalogue: their answers, or their plans under a
/// method.
#[derive(Clone, Copy)]
pub(crate) enum Goal {
    Answers,
    Plans(Method),
}

/// What is made of a script: its printed form, or something of its statements and the tables, by a machine.
#[derive(Clone, Copy)]
pub(crate) enum Aim {
    Print,
    Make { goal: Goal, machine: Machine },
}
