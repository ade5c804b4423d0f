//! Scripts, by recursive descent.

ghost use Rattle.std.specs.Prelude.{◌≡◌, map, IfOk, IfErr};
ghost use Rattle.postquel_tokens.specs.Forms.{sentence_of};
ghost use Rattle.postquel.specs.Input.{Reads, ReadsAs};
ghost use Rattle.postquel.specs.Program.{program_of};
ghost use Rattle.postquel.specs.Script as spec;
ghost use Rattle.postquel.specs.Start as start;
ghost use Rattle.postquel.specs.Reading.{IsLexed, Tells, OneReading};
ghost use Rattle.std.specs.Result.{result_map_both};
ghost use Rattle.postquel.specs.Loop.{listed};

use crate::Script;
use crate::class::{Class, Key, Soft};
use crate::cursor::{Cursor, Halt};
use crate::grammar::number_of;
use crate::statement::statement;
use postquel_tokens::{Sign, Statement, StepForm, TextErr, Token, TokenList, What};
use std::alloc::Global;

#[tactic(auto, unfolding(crate::specs::Script::number))]
fn number<'a>(cursor: &mut Cursor<'a>) -> Result<&'a Token, Halt>
    ensures ok { IfOk result (λ t. spec.number cursor.old ≡ Ok (t.now, cursor.new)) }
    ensures err { IfErr result (λ e. Reads (spec.number cursor.old) (Err e) cursor.new) }
{
    match cursor.peek() {
        Class::Number => cursor.take(),
        _ => Err(Halt::Refused(What::Unexpected)),
    }
}

#[tactic(auto, unfolding(crate::specs::Script::after_word))]
fn after_word(cursor: &mut Cursor<'_>) -> Result<(), Halt>
    ensures { Reads (spec.after_word cursor.old) result cursor.new }
{
    match cursor.peek() {
        Class::Name(Soft::After) => {
            cursor.take()?;
            Ok(())
        }
        _ => Err(Halt::Refused(What::Unexpected)),
    }
}

#[tactic(auto, unfolding(crate::specs::Script::step))]
fn step(cursor: &mut Cursor<'_>) -> Result<StepForm, Halt>
    ensures { Reads (spec.step cursor.old) result cursor.new }
{
    let backends = number(cursor)?;
    after_word(cursor)?;
    let finished = number(cursor)?;
    Ok(StepForm {
        backends: number_of(&backends.kind),
        backends_spot: backends.spot,
        after: number_of(&finished.kind),
        after_spot: finished.spot,
    })
}

#[tactic(auto, unfolding(crate::specs::Loop::listed, crate::specs::Loop::more_items, crate::specs::Loop::repeat, crate::specs::Loop::turns))]
fn step_list(alloc: Global, cursor: &mut Cursor<'_>) -> Result<Vec<StepForm>, Halt>
    ensures { ReadsAs (λ v. v.items) (listed spec.step cursor.old) result cursor.new }
{
    let mut found = Vec::new(alloc);
    found.push(step(cursor)?)?;
    for _turn in 0..cursor.left() {
        match cursor.peek() {
            Class::Mark(Sign::Comma) => {
                cursor.take()?;
                found.push(step(cursor)?)?;
            }
            _ => return Ok(found),
        }
    }
    Ok(found)
}

#[tactic(auto, unfolding(crate::specs::Script::machine, crate::specs::Input::or_none))]
fn machine(alloc: Global, cursor: &mut Cursor<'_>) -> Result<Vec<StepForm>, Halt>
    ensures { ReadsAs (λ v. v.items) (spec.machine cursor.old) result cursor.new }
{
    if !cursor.is_at(Key::Machine) {
        return Ok(Vec::new(alloc));
    }
    cursor.take()?;
    let steps = step_list(alloc, cursor)?;
    cursor.expect(Sign::Go)?;
    Ok(steps)
}

#[tactic(auto, unfolding(crate::specs::Script::statements, crate::specs::Loop::repeat, crate::specs::Loop::turns))]
fn statements(alloc: Global, cursor: &mut Cursor<'_>) -> Result<Vec<Statement>, Halt>
    ensures { ReadsAs (λ v. map sentence_of v.items) (spec.statements cursor.old) result cursor.new }
{
    let mut found = Vec::new(alloc);
    for _turn in 0..cursor.left() {
        match cursor.peek() {
            Class::End => return Ok(found),
            _ => found.push(statement(alloc, cursor)?)?,
        }
    }
    Ok(found)
}

#[tactic(auto, unfolding(crate::specs::Script::script))]
fn script(alloc: Global, cursor: &mut Cursor<'_>) -> Result<Script, Halt>
    ensures { ReadsAs program_of (spec.script cursor.old) result cursor.new }
{
    let steps = machine(alloc, cursor)?;
    let statements = statements(alloc, cursor)?;
    Ok(Script::new(steps, statements))
}

fn parsed(alloc: Global, tokens: &TokenList) -> Result<Script, TextErr>
    ensures { start.Parses program_of result (spec.script (start.start_of tokens.now)) }
{
    let mut cursor = Cursor::new(tokens.items());
    match script(alloc, &mut cursor) {
        Ok(found) => Ok(found),
        Err(Halt::NoMemory) => Err(TextErr::NoMemory),
        Err(Halt::Refused(what)) => Err(TextErr::at(cursor.spot(), what)),
    }
}

/// The script that the tokens of a text are, or the first fault with its place: `Unexpected` at the
/// first token with which no script goes on, `TooDeep` at the 33rd open parenthesis,
/// `StatementTooLong` at the 1,001st token of a statement or of the machine line, and
/// `TooManyStatements` at the 17th statement's first token, in this order at one token.
pub fn parse(alloc: Global, tokens: &TokenList) -> Result<Script, TextErr>
    requires { IsLexed tokens.now }
    ensures { Tells tokens.now (result_map_both program_of (λ e. e) result) }
{
    parsed(alloc, tokens)
}

/// A law: two readings of one list of tokens are equal, so each fault comes exactly where it is
/// said to come. It does nothing when it runs.
pub fn one_reading()
    ensures { OneReading }
{}
