//! Prints expressions, with parentheses exactly where strengths ask for them.

ghost use Rattle.std.specs.Prelude.{◌≡◌, ◌++◌, OnOk};
ghost use Rattle.std.specs.Fmt.{signed_decimal};
ghost use Rattle.postquel_tokens.specs.Forms.{phrase_of};
ghost use Rattle.postquel.specs.Print as spec;
ghost use Rattle.postquel.specs.Onto.{escaped_onto};

use itoa::Buffer;
use postquel_tokens::{BinaryOp, Form, UnaryOp};
use std::alloc::AllocError;

fn symbol(op: BinaryOp) -> &'static [u8]
    ensures { result.now ≡ spec.symbol op }
{
    match op {
        BinaryOp::Or => b"or",
        BinaryOp::And => b"and",
        BinaryOp::Equal => b"=",
        BinaryOp::NotEqual => b"!=",
        BinaryOp::Less => b"<",
        BinaryOp::AtMost => b"<=",
        BinaryOp::More => b">",
        BinaryOp::AtLeast => b">=",
        BinaryOp::Add => b"+",
        BinaryOp::Sub => b"-",
        BinaryOp::Mul => b"*",
    }
}

fn prefix_symbol(op: UnaryOp) -> &'static [u8]
    ensures { result.now ≡ spec.prefix_symbol op }
{
    match op {
        UnaryOp::Not => b"not ",
        UnaryOp::Negate => b"-",
    }
}

fn binary_strength(op: BinaryOp) -> u8
    ensures { result ≡ spec.binary_strength op }
{
    match op {
        BinaryOp::Or => 1,
        BinaryOp::And => 2,
        BinaryOp::Add | BinaryOp::Sub => 5,
        BinaryOp::Mul => 6,
        _ => 4,
    }
}

fn unary_strength(op: UnaryOp) -> u8
    ensures { result ≡ spec.unary_strength op }
{
    match op {
        UnaryOp::Not => 3,
        UnaryOp::Negate => 7,
    }
}

fn strength(form: &Form) -> u8
    ensures { result ≡ spec.strength (phrase_of form.now) }
{
    match form {
        Form::Unary { op, .. } => unary_strength(*op),
        Form::Binary { op, .. } => binary_strength(*op),
        Form::IsNull { .. } => 4,
        Form::Number(_) | Form::Word(_) | Form::Truth(_) | Form::Dotted { .. } => 8,
    }
}

// The least strength of a left operand.
fn least_left(op: BinaryOp) -> u8
    ensures { result ≡ spec.least_left op }
{
    match op {
        BinaryOp::Or => 1,
        BinaryOp::And => 2,
        BinaryOp::Mul => 6,
        _ => 5,
    }
}

// The least strength of a right operand.
fn least_right(op: BinaryOp) -> u8
    ensures { result ≡ spec.least_right op }
{
    match op {
        BinaryOp::Or => 2,
        BinaryOp::And => 3,
        BinaryOp::Add | BinaryOp::Sub => 6,
        BinaryOp::Mul => 7,
        _ => 5,
    }
}

fn least_behind(op: UnaryOp) -> u8
    ensures { result ≡ spec.least_behind op }
{
    match op {
        UnaryOp::Not => 4,
        UnaryOp::Negate => 8,
    }
}

/// A number without leading zeros.
pub fn push_number(out: &mut Vec<u8>, number: i64) -> Result<(), AllocError>
    ensures { OnOk result (out.new.items ≡ out.old.items ++ signed_decimal number) }
{
    Ok(out.extend_from_slice(Buffer::new().format(number).as_bytes())?)
}

fn push_escaped(out: &mut Vec<u8>, text: &[u8]) -> Result<(), AllocError>
    ensures { OnOk result (out.new.items ≡ escaped_onto out.old.items text.now) }
{
    for b in text {
        if *b == b'"' || *b == b'\\' {
            out.push(b'\\')?;
        }
        out.push(*b)?;
    }
    Ok(())
}

#[tactic(auto, using(crate::proofs::Texts::quoted_is))]
fn push_quoted(out: &mut Vec<u8>, text: &[u8]) -> Result<(), AllocError>
    ensures { OnOk result (out.new.items ≡ out.old.items ++ spec.quoted text.now) }
{
    out.push(b'"')?;
    push_escaped(out, text)?;
    out.push(b'"')?;
    Ok(())
}

/// A name, a dot and a name.
pub fn push_dotted(out: &mut Vec<u8>, var: &[u8], col: &[u8]) -> Result<(), AllocError>
    ensures { OnOk result (out.new.items ≡ out.old.items ++ spec.dotted_text var.now col.now) }
{
    out.extend_from_slice(var)?;
    out.push(b'.')?;
    out.extend_from_slice(col)?;
    Ok(())
}

fn push_truth(out: &mut Vec<u8>, truth: bool) -> Result<(), AllocError>
    ensures { OnOk result (out.new.items ≡ out.old.items ++ spec.truth_text truth) }
{
    if truth {
        Ok(out.extend_from_slice(b"true")?)
    } else {
        Ok(out.extend_from_slice(b"false")?)
    }
}

fn push_null(out: &mut Vec<u8>, negated: bool) -> Result<(), AllocError>
    ensures { OnOk result (out.new.items ≡ out.old.items ++ spec.null_text negated) }
{
    if negated {
        Ok(out.extend_from_slice(b" is not null")?)
    } else {
        Ok(out.extend_from_slice(b" is null")?)
    }
}

#[cycle(print)]
fn push_operand(out: &mut Vec<u8>, least: u8, form: &Form) -> Result<(), AllocError>
    ensures { OnOk result (out.new.items ≡ out.old.items ++ spec.wrapped least (spec.strength (phrase_of form.now)) (spec.text (phrase_of form.now))) }
{
    if strength(form) < least {
        out.push(b'(')?;
        push_form(out, form)?;
        out.push(b')')?;
        Ok(())
    } else {
        push_form(out, form)
    }
}

#[cycle(print)]
fn push_unary(out: &mut Vec<u8>, op: UnaryOp, operand: &Form) -> Result<(), AllocError>
    ensures { OnOk result (out.new.items ≡ out.old.items ++ spec.unary_text op (spec.strength (phrase_of operand.now)) (spec.text (phrase_of operand.now))) }
{
    out.extend_from_slice(prefix_symbol(op))?;
    push_operand(out, least_behind(op), operand)
}

#[cycle(print)]
fn push_is_null(out: &mut Vec<u8>, negated: bool, operand: &Form) -> Result<(), AllocError>
    ensures { OnOk result (out.new.items ≡ out.old.items ++ spec.is_null_text negated (spec.strength (phrase_of operand.now)) (spec.text (phrase_of operand.now))) }
{
    push_operand(out, 5, operand)?;
    push_null(out, negated)
}

#[cycle(print)]
fn push_binary(out: &mut Vec<u8>, op: BinaryOp, left: &Form, right: &Form) -> Result<(), AllocError>
    ensures { OnOk result (out.new.items ≡ out.old.items ++ spec.binary_text op (spec.strength (phrase_of left.now)) (spec.text (phrase_of left.now)) (spec.strength (phrase_of right.now)) (spec.text (phrase_of right.now))) }
{
    push_operand(out, least_left(op), left)?;
    out.push(b' ')?;
    out.extend_from_slice(symbol(op))?;
    out.push(b' ')?;
    push_operand(out, least_right(op), right)
}

/// An expression.
#[cycle(print)]
#[tactic(auto, unfolding(crate::specs::Print::text))]
pub fn push_form(out: &mut Vec<u8>, form: &Form) -> Result<(), AllocError>
    ensures { OnOk result (out.new.items ≡ out.old.items ++ spec.text (phrase_of form.now)) }
{
    match form {
        Form::Number(number) => push_number(out, *number),
        Form::Word(text) => push_quoted(out, text.items()),
        Form::Truth(truth) => push_truth(out, *truth),
        Form::Dotted { var, col } => push_dotted(out, var.text.items(), col.text.items()),
        Form::Unary { op, operand, .. } => push_unary(out, *op, operand),
        Form::Binary {
            op,
            left,
            right,
            ..
        } => push_binary(out, *op, left, right),
        Form::IsNull {
            operand,
            negated,
            ..
        } => push_is_null(out, *negated, operand),
    }
}
