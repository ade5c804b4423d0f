ghost use Rattle.std.specs.Prelude.{◌≡◌, ◌++◌, ◌+◌, ◌^◌, ◌<◌, ◌≤◌, [], All, IfOk, OnOk, length, map};
ghost use Rattle.io_cpu_scheduler.specs.Limits.{IsLoad, IsMachine};
ghost use Rattle.plan_tree.specs.Explained.{class_text, explained, fragment_line, fragment_lines, labelled, line_if, load_text, name_of, plan_lines, size_text, statement_lines, tree_text, way_text};
ghost use Rattle.plan_tree.specs.Pieces.{piece_of, pieces_of};
ghost use Rattle.plan_tree.specs.Views.{planned_of, shape_of};
ghost use Rattle.plan_tree.specs.WellFormed.{IsTimed, IsTimedFragment};

use crate::{Fragment, FragmentList, Plan, PlanList, Tree, Way};
use io_cpu_scheduler::{Class, Load, class_of, solo};
use itoa::Buffer;
use rel_meaning::Var;
use rows::Machine;
use std::alloc::{AllocError, Global};

fn push(out: &mut Vec<u8>, text: &[u8]) -> Result<(), AllocError>
    ensures { OnOk result (out.new.items ≡ out.old.items ++ text.now) }
{
    Ok(out.extend_from_slice(text)?)
}

// A name and a number.
fn push_labelled(out: &mut Vec<u8>, label: &[u8], number: u64) -> Result<(), AllocError>
    ensures { OnOk result (out.new.items ≡ out.old.items ++ labelled label.now number) }
{
    push(out, label)?;
    push(out, Buffer::new().format(number).as_bytes())
}

// The name of a variable.
fn push_name(out: &mut Vec<u8>, vars: &[Var], var: u32) -> Result<(), AllocError>
    ensures { OnOk result (out.new.items ≡ out.old.items ++ name_of vars.now var) }
{
    match vars.get(var as usize) {
        Some(found) => push(out, found.name.items()),
        None => Ok(()),
    }
}

fn push_way(out: &mut Vec<u8>, way: Way) -> Result<(), AllocError>
    ensures { OnOk result (out.new.items ≡ out.old.items ++ way_text way) }
{
    match way {
        Way::Heap => push(out, b":heap"),
        Way::Index(_) => push(out, b":index"),
    }
}

fn push_tree(out: &mut Vec<u8>, vars: &[Var], tree: &Tree) -> Result<(), AllocError>
    ensures { OnOk result (out.new.items ≡ out.old.items ++ tree_text vars.now (shape_of tree.now)) }
{
    match tree {
        Tree::One { .. } => push(out, b"one"),
        Tree::Scan { var, way, .. } => {
            push_name(out, vars, *var)?;
            push_way(out, *way)
        }
        Tree::Join { build, probe, .. } => {
            push(out, b"(")?;
            push_tree(out, vars, build)?;
            push(out, b" * ")?;
            push_tree(out, vars, probe)?;
            push(out, b")")
        }
        Tree::Merge { left, right, .. } => {
            push(out, b"(")?;
            push_tree(out, vars, left)?;
            push(out, b" ~ ")?;
            push_tree(out, vars, right)?;
            push(out, b")")
        }
    }
}

fn push_class(out: &mut Vec<u8>, class: Class) -> Result<(), AllocError>
    ensures { OnOk result (out.new.items ≡ out.old.items ++ class_text class) }
{
    match class {
        Class::Io => push(out, b" io"),
        Class::Cpu => push(out, b" cpu"),
    }
}

fn push_load(out: &mut Vec<u8>, load: &Load, machine: &Machine) -> Result<(), AllocError>
    requires load { IsLoad load.now }
    requires machine { IsMachine machine.now }
    ensures { OnOk result (out.new.items ≡ out.old.items ++ load_text machine.now load.now) }
{
    push_class(out, class_of(load, machine))?;
    push_labelled(out, b" solo ", u64::from(solo(load, machine)))
}

fn push_sizes(out: &mut Vec<u8>, number: u32, fragment: &Fragment) -> Result<(), AllocError>
    ensures { OnOk result (out.new.items ≡ out.old.items ++ size_text number (piece_of fragment.now)) }
{
    push_labelled(out, b"fragment ", u64::from(number))?;
    push_labelled(out, b" positions ", u64::from(fragment.positions))?;
    push_labelled(out, b" pages ", fragment.pages)?;
    push_labelled(out, b" time ", fragment.time)
}

// The line of a fragment.
fn push_fragment(
    out: &mut Vec<u8>,
    number: u32,
    fragment: &Fragment,
    machine: &Machine,
) -> Result<(), AllocError>
    requires timed { IsTimed fragment.now.pages fragment.now.time }
    requires machine { IsMachine machine.now }
    ensures { OnOk result (out.new.items ≡ out.old.items ++ fragment_line machine.now number (piece_of fragment.now)) }
{
    let load = Load {
        fragment: number,
        pages: fragment.pages,
        time: fragment.time,
    };
    push_sizes(out, number, fragment)?;
    push_load(out, &load, machine)?;
    push(out, b"\n")
}

fn push_fragment_of(
    out: &mut Vec<u8>,
    statement: usize,
    number: u32,
    fragment: &Fragment,
    machine: &Machine,
) -> Result<(), AllocError>
    requires timed { IsTimed fragment.now.pages fragment.now.time }
    requires machine { IsMachine machine.now }
    ensures { OnOk result (out.new.items ≡ out.old.items ++ line_if machine.now statement number (piece_of fragment.now)) }
{
    if fragment.statement as usize == statement {
        push_fragment(out, number, fragment, machine)
    } else {
        Ok(())
    }
}

// The lines of a statement's fragments.
fn push_fragments(
    out: &mut Vec<u8>,
    statement: usize,
    fragments: &[Fragment],
    machine: &Machine,
) -> Result<(), AllocError>
    requires few { length fragments.now < 2 ^ 32 }
    requires timed { All IsTimedFragment fragments.now }
    requires machine { IsMachine machine.now }
    ensures { OnOk result (out.new.items ≡ out.old.items ++ fragment_lines machine.now statement 0 (pieces_of fragments.now)) }
{
    for (number, fragment) in fragments.iter().enumerate() {
        push_fragment_of(out, statement, number as u32, fragment, machine)?;
    }
    Ok(())
}

fn push_plan(out: &mut Vec<u8>, statement: usize, plan: &Plan) -> Result<(), AllocError>
    requires { statement + 1 < 2 ^ 64 }
    ensures { OnOk result (out.new.items ≡ out.old.items ++ plan_lines statement (planned_of plan.now)) }
{
    push_labelled(out, b"statement ", (statement + 1) as u64)?;
    push_labelled(out, b" cost ", plan.cost)?;
    push(out, b"\nplan ")?;
    push_tree(out, plan.query.vars.items(), &plan.tree)?;
    push(out, b"\n")
}

// The lines of a plan and of its fragments.
fn push_statement(
    out: &mut Vec<u8>,
    statement: usize,
    plan: &Plan,
    fragments: &[Fragment],
    machine: &Machine,
) -> Result<(), AllocError>
    requires number { statement + 1 < 2 ^ 64 }
    requires few { length fragments.now < 2 ^ 32 }
    requires timed { All IsTimedFragment fragments.now }
    requires machine { IsMachine machine.now }
    ensures { OnOk result (out.new.items ≡ out.old.items ++ statement_lines machine.now (pieces_of fragments.now) statement (planned_of plan.now)) }
{
    push_plan(out, statement, plan)?;
    push_fragments(out, statement, fragments, machine)
}

// The lines of all plans.
fn push_plans(
    out: &mut Vec<u8>,
    plans: &[Plan],
    fragments: &[Fragment],
    machine: &Machine,
) -> Result<(), AllocError>
    requires few { length fragments.now < 2 ^ 32 }
    requires timed { All IsTimedFragment fragments.now }
    requires machine { IsMachine machine.now }
    ensures { OnOk result (out.new.items ≡ out.old.items ++ explained machine.now (pieces_of fragments.now) 0 (map planned_of plans.now)) }
{
    for (statement, plan) in plans.iter().enumerate() {
        push_statement(out, statement, plan, fragments, machine)?;
    }
    Ok(())
}

/// The text that explains plans: for each statement, counted from 1, its cost and its tree, and then a line for each of
/// its fragments with its class and its degree alone on the machine. With no fragments there are no such lines. Every list
/// of fragments that is well formed may be explained. An error is want of memory.
pub fn explain_text(
    alloc: Global,
    plans: &PlanList,
    fragments: &FragmentList,
    machine: &Machine,
) -> Result<Vec<u8>, AllocError>
    requires few { length fragments.now ≤ 1000 }
    requires timed { All IsTimedFragment fragments.now }
    requires machine { IsMachine machine.now }
    ensures { IfOk result (λ text. text.items ≡ explained machine.now (pieces_of fragments.now) 0 (map planned_of plans.now)) }
{
    let mut out = Vec::new(alloc);
    push_plans(&mut out, plans.items(), fragments.items(), machine)?;
    Ok(out)
}
