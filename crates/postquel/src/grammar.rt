//! Expressions, by recursive descent.

ghost use Rattle.std.specs.Prelude.{◌≡◌, ◌<◌, IfOk};
ghost use Rattle.postquel.specs.Input.{Reads, ReadsAs};
ghost use Rattle.postquel_tokens.specs.Forms as phrase;
ghost use Rattle.postquel_tokens.specs.Forms.{phrase_of};
ghost use Rattle.postquel.specs.Grammar as spec;

use crate::class::{Class, Key};
use crate::cursor::{Cursor, Halt};
use crate::level::Level;
use postquel_tokens::{BinaryOp, Form, Ident, Sign, Spot, TokenKind, UnaryOp, What};
use rows::Text;
use std::alloc::{AllocError, Global};

fn unary(alloc: Global, op: UnaryOp, spot: Spot, operand: Form) -> Result<Form, AllocError>
    ensures { IfOk result (λ f. phrase_of f ≡ phrase.Unary op spot (phrase_of operand)) }
{
    Ok(Form::Unary {
        op,
        spot,
        operand: Box::new(alloc, operand)?,
    })
}

fn binary(
    alloc: Global,
    op: BinaryOp,
    spot: Spot,
    left: Form,
    right: Form,
) -> Result<Form, AllocError>
    ensures { IfOk result (λ f. phrase_of f ≡ phrase.Binary op spot (phrase_of left) (phrase_of right)) }
{
    Ok(Form::Binary {
        op,
        spot,
        left: Box::new(alloc, left)?,
        right: Box::new(alloc, right)?,
    })
}

pub fn number_of(kind: &TokenKind) -> i64
    ensures { result ≡ spec.number_of kind.now }
{
    match kind {
        TokenKind::Number(n) => *n,
        _ => 0,
    }
}

fn text_of(alloc: Global, kind: &TokenKind) -> Result<Text, AllocError>
    ensures { IfOk result (λ t. t ≡ spec.text_of kind.now) }
{
    match kind {
        TokenKind::Name(text) | TokenKind::Word(text) => {
            Ok(Text::from_slice(alloc, text.items())?)
        }
        _ => Ok(Text::from_vec(Vec::new(alloc))),
    }
}

#[tactic(auto, unfolding(crate::specs::Grammar::ident))]
pub fn ident(alloc: Global, cursor: &mut Cursor<'_>) -> Result<Ident, Halt>
    ensures { Reads (spec.ident cursor.old) result cursor.new }
{
    match cursor.peek() {
        Class::Name(_) => {
            let token = cursor.take()?;
            Ok(Ident {
                text: text_of(alloc, &token.kind)?,
                spot: token.spot,
            })
        }
        _ => Err(Halt::Refused(What::Unexpected)),
    }
}

#[tactic(auto, unfolding(crate::specs::Grammar::dotted))]
fn dotted(alloc: Global, cursor: &mut Cursor<'_>) -> Result<Form, Halt>
    ensures { ReadsAs phrase_of (spec.dotted cursor.old) result cursor.new }
{
    let var = ident(alloc, cursor)?;
    cursor.expect(Sign::Dot)?;
    let col = ident(alloc, cursor)?;
    Ok(Form::Dotted { var, col })
}

#[tactic(auto, unfolding(crate::specs::Grammar::leaf))]
fn leaf(alloc: Global, cursor: &mut Cursor<'_>) -> Result<Form, Halt>
    ensures { ReadsAs phrase_of (spec.leaf cursor.old) result cursor.new }
{
    match cursor.peek() {
        Class::Number => {
            let token = cursor.take()?;
            Ok(Form::Number(number_of(&token.kind)))
        }
        Class::Word => {
            let token = cursor.take()?;
            Ok(Form::Word(text_of(alloc, &token.kind)?))
        }
        Class::Key(Key::True) => {
            cursor.take()?;
            Ok(Form::Truth(true))
        }
        Class::Key(Key::False) => {
            cursor.take()?;
            Ok(Form::Truth(false))
        }
        _ => dotted(alloc, cursor),
    }
}

#[cycle(form)]
pub fn form(alloc: Global, cursor: &mut Cursor<'_>, level: Level, depth: u32) -> Result<Form, Halt>
    ensures { ReadsAs phrase_of (spec.form_at (spec.nested depth) level cursor.old) result cursor.new }
{
    match level {
        Level::Or | Level::And | Level::Sum | Level::Product => {
            chained(alloc, cursor, level, depth)
        }
        Level::Not | Level::Sign => prefixed(alloc, cursor, level, depth),
        Level::Comparison => compared(alloc, cursor, depth),
        Level::Atom => atom(alloc, cursor, depth),
    }
}

#[cycle(form)]
#[tactic(auto, unfolding(crate::specs::Grammar::atom))]
fn atom(alloc: Global, cursor: &mut Cursor<'_>, depth: u32) -> Result<Form, Halt>
    ensures { ReadsAs phrase_of (spec.atom (spec.nested depth) cursor.old) result cursor.new }
{
    match cursor.peek() {
        Class::Mark(Sign::Left) => nested(alloc, cursor, depth),
        _ => leaf(alloc, cursor),
    }
}

#[cycle(form)]
#[tactic(auto, unfolding(crate::specs::Grammar::nested))]
fn nested(alloc: Global, cursor: &mut Cursor<'_>, depth: u32) -> Result<Form, Halt>
    ensures { ReadsAs phrase_of (spec.nested depth cursor.old) result cursor.new }
{
    if depth == 0 {
        return Err(Halt::Refused(What::TooDeep));
    }
    cursor.take()?;
    let inner = form(alloc, cursor, Level::Or, depth - 1)?;
    cursor.expect(Sign::Right)?;
    Ok(inner)
}

#[cycle(form)]
#[tactic(auto, unfolding(crate::specs::Grammar::prefixed))]
fn prefixed(alloc: Global, cursor: &mut Cursor<'_>, level: Level, depth: u32) -> Result<Form, Halt>
    requires { 0 < spec.rank level }
    ensures { ReadsAs phrase_of (spec.prefixed level (spec.form_at (spec.nested depth) (spec.next level)) cursor.old) result cursor.new }
{
    match level.before(cursor.peek()) {
        None => form(alloc, cursor, level.next(), depth),
        Some(op) => {
            let spot = cursor.take()?.spot;
            let operand = form(alloc, cursor, level.next(), depth)?;
            Ok(unary(alloc, op, spot, operand)?)
        }
    }
}

#[tactic(auto, unfolding(crate::specs::Grammar::denial, crate::specs::Input::or_none))]
fn denial(cursor: &mut Cursor<'_>) -> Result<bool, Halt>
    ensures { Reads (spec.denial cursor.old) result cursor.new }
{
    if !cursor.is_at(Key::Not) {
        return Ok(false);
    }
    cursor.take()?;
    Ok(true)
}

fn is_null(alloc: Global, spot: Spot, operand: Form, negated: bool) -> Result<Form, AllocError>
    ensures { IfOk result (λ f. phrase_of f ≡ phrase.IsNull spot (phrase_of operand) negated) }
{
    Ok(Form::IsNull {
        spot,
        operand: Box::new(alloc, operand)?,
        negated,
    })
}

#[tactic(auto, unfolding(crate::specs::Grammar::null_test))]
fn null_test(alloc: Global, cursor: &mut Cursor<'_>, operand: Form) -> Result<Form, Halt>
    ensures { ReadsAs phrase_of (spec.null_test (phrase_of operand) cursor.old) result cursor.new }
{
    let spot = cursor.take()?.spot;
    let negated = denial(cursor)?;
    cursor.expect_key(Key::Null)?;
    Ok(is_null(alloc, spot, operand, negated)?)
}

#[cycle(form)]
#[tactic(auto, unfolding(crate::specs::Grammar::compared))]
fn compared(alloc: Global, cursor: &mut Cursor<'_>, depth: u32) -> Result<Form, Halt>
    ensures { ReadsAs phrase_of (spec.compared (spec.form_at (spec.nested depth) Level.Sum) cursor.old) result cursor.new }
{
    let left = form(alloc, cursor, Level::Sum, depth)?;
    match cursor.peek() {
        Class::Key(Key::Is) => null_test(alloc, cursor, left),
        class => match Level::Comparison.between(class) {
            None => Ok(left),
            Some(op) => {
                let spot = cursor.take()?.spot;
                let right = form(alloc, cursor, Level::Sum, depth)?;
                Ok(binary(alloc, op, spot, left, right)?)
            }
        },
    }
}

#[cycle(form)]
#[tactic(auto, unfolding(crate::specs::Grammar::chained, crate::specs::Grammar::climb))]
fn chained(alloc: Global, cursor: &mut Cursor<'_>, level: Level, depth: u32) -> Result<Form, Halt>
    requires { 0 < spec.rank level }
    ensures { ReadsAs phrase_of (spec.chained level (spec.form_at (spec.nested depth) (spec.next level)) cursor.old) result cursor.new }
{
    let mut left = form(alloc, cursor, level.next(), depth)?;
    for _turn in 0..cursor.left() {
        let Some(op) = level.between(cursor.peek()) else {
            return Ok(left);
        };
        let spot = cursor.take()?.spot;
        let right = form(alloc, cursor, level.next(), depth)?;
        left = binary(alloc, op, spot, left, right)?;
    }
    Ok(left)
}
