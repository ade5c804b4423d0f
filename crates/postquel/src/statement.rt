//! Statements, by recursive descent.

ghost use Rattle.std.specs.Prelude.{◌≡◌, map};
ghost use Rattle.std.specs.Option.{option_map};
ghost use Rattle.postquel_tokens.specs.Forms.{wish_of, condition_of, sentence_of};
ghost use Rattle.postquel.specs.Input.{Reads, ReadsAs};
ghost use Rattle.postquel.specs.Script as spec;
ghost use Rattle.postquel.specs.Loop.{listed};

use crate::class::{Class, Key, Soft};
use crate::cursor::{Cursor, Halt};
use crate::grammar::{form, ident};
use crate::level::Level;
use lists::Sequence;
use postquel_tokens::{
    Ident, IntoForm, KeyForm, KeyFormList, RangeForm, RangeFormList, Sign, Statement, TargetForm,
    TargetFormList, TestForm, What,
};
use std::alloc::Global;

#[tactic(auto, unfolding(crate::specs::Script::titled))]
fn titled(alloc: Global, cursor: &mut Cursor<'_>, name: Ident) -> Result<TargetForm, Halt>
    ensures { ReadsAs wish_of (spec.titled name cursor.old) result cursor.new }
{
    let form = form(alloc, cursor, Level::Or, 31)?;
    Ok(TargetForm::Named { name, form })
}

#[tactic(auto, unfolding(crate::specs::Script::folded))]
fn folded(alloc: Global, cursor: &mut Cursor<'_>, name: Ident) -> Result<TargetForm, Halt>
    ensures { ReadsAs wish_of (spec.folded name cursor.old) result cursor.new }
{
    let fold = ident(alloc, cursor)?;
    cursor.expect(Sign::Left)?;
    let form = form(alloc, cursor, Level::Or, 30)?;
    cursor.expect(Sign::Right)?;
    Ok(TargetForm::Fold { name, fold, form })
}

#[tactic(auto, unfolding(crate::specs::Script::value_of))]
fn value_of(alloc: Global, cursor: &mut Cursor<'_>, name: Ident) -> Result<TargetForm, Halt>
    ensures { ReadsAs wish_of (spec.value_of name cursor.old) result cursor.new }
{
    match (cursor.peek(), cursor.second()) {
        (Class::Name(Soft::Fold), Class::Mark(Sign::Left)) => folded(alloc, cursor, name),
        _ => titled(alloc, cursor, name),
    }
}

#[tactic(auto, unfolding(crate::specs::Script::columns_of))]
fn columns_of(alloc: Global, cursor: &mut Cursor<'_>, var: Ident) -> Result<TargetForm, Halt>
    ensures { ReadsAs wish_of (spec.columns_of var cursor.old) result cursor.new }
{
    match cursor.peek() {
        Class::Key(Key::All) => {
            cursor.take()?;
            Ok(TargetForm::All { var })
        }
        _ => {
            let col = ident(alloc, cursor)?;
            Ok(TargetForm::Dotted { var, col })
        }
    }
}

#[tactic(auto, unfolding(crate::specs::Script::target))]
fn target(alloc: Global, cursor: &mut Cursor<'_>) -> Result<TargetForm, Halt>
    ensures { ReadsAs wish_of (spec.target cursor.old) result cursor.new }
{
    let name = ident(alloc, cursor)?;
    match cursor.peek() {
        Class::Mark(Sign::Equal) => {
            cursor.take()?;
            value_of(alloc, cursor, name)
        }
        Class::Mark(Sign::Dot) => {
            cursor.take()?;
            columns_of(alloc, cursor, name)
        }
        _ => Err(Halt::Refused(What::Unexpected)),
    }
}

#[tactic(auto, unfolding(crate::specs::Loop::listed, crate::specs::Loop::more_items, crate::specs::Loop::repeat, crate::specs::Loop::turns))]
fn targets(alloc: Global, cursor: &mut Cursor<'_>) -> Result<TargetFormList, Halt>
    ensures { ReadsAs (map wish_of) (listed spec.target cursor.old) result cursor.new }
{
    let mut found = Vec::new(alloc);
    found.push(target(alloc, cursor)?)?;
    for _turn in 0..cursor.left() {
        match cursor.peek() {
            Class::Mark(Sign::Comma) => {
                cursor.take()?;
                found.push(target(alloc, cursor)?)?;
            }
            _ => return Ok(Sequence::from_vec(found)),
        }
    }
    Ok(Sequence::from_vec(found))
}

#[tactic(auto, unfolding(crate::specs::Script::range))]
fn range(alloc: Global, cursor: &mut Cursor<'_>) -> Result<RangeForm, Halt>
    ensures { Reads (spec.range cursor.old) result cursor.new }
{
    let var = ident(alloc, cursor)?;
    cursor.expect_key(Key::In)?;
    let relation = ident(alloc, cursor)?;
    Ok(RangeForm { var, relation })
}

#[tactic(auto, unfolding(crate::specs::Loop::listed, crate::specs::Loop::more_items, crate::specs::Loop::repeat, crate::specs::Loop::turns))]
fn range_list(alloc: Global, cursor: &mut Cursor<'_>) -> Result<RangeFormList, Halt>
    ensures { Reads (listed spec.range cursor.old) result cursor.new }
{
    let mut found = Vec::new(alloc);
    found.push(range(alloc, cursor)?)?;
    for _turn in 0..cursor.left() {
        match cursor.peek() {
            Class::Mark(Sign::Comma) => {
                cursor.take()?;
                found.push(range(alloc, cursor)?)?;
            }
            _ => return Ok(Sequence::from_vec(found)),
        }
    }
    Ok(Sequence::from_vec(found))
}

#[tactic(auto, unfolding(crate::specs::Script::ranges, crate::specs::Input::or_none))]
fn ranges(alloc: Global, cursor: &mut Cursor<'_>) -> Result<RangeFormList, Halt>
    ensures { Reads (spec.ranges cursor.old) result cursor.new }
{
    if !cursor.is_at(Key::From) {
        return Ok(Sequence::new(alloc));
    }
    cursor.take()?;
    range_list(alloc, cursor)
}

#[tactic(auto, unfolding(crate::specs::Script::test, crate::specs::Input::or_none))]
fn test(alloc: Global, cursor: &mut Cursor<'_>) -> Result<Option<TestForm>, Halt>
    ensures { ReadsAs (option_map condition_of) (spec.test cursor.old) result cursor.new }
{
    if !cursor.is_at(Key::Where) {
        return Ok(None);
    }
    let spot = cursor.take()?.spot;
    let form = form(alloc, cursor, Level::Or, 32)?;
    Ok(Some(TestForm { spot, form }))
}

#[tactic(auto, unfolding(crate::specs::Script::direction, crate::specs::Input::or_none))]
fn direction(cursor: &mut Cursor<'_>) -> Result<bool, Halt>
    ensures { Reads (spec.direction cursor.old) result cursor.new }
{
    if !cursor.is_at(Key::Using) {
        return Ok(false);
    }
    cursor.take()?;
    match cursor.peek() {
        Class::Mark(Sign::More) => {
            cursor.take()?;
            Ok(true)
        }
        Class::Mark(Sign::Less) => {
            cursor.take()?;
            Ok(false)
        }
        _ => Err(Halt::Refused(What::Unexpected)),
    }
}

#[tactic(auto, unfolding(crate::specs::Script::sort_key))]
fn sort_key(alloc: Global, cursor: &mut Cursor<'_>) -> Result<KeyForm, Halt>
    ensures { Reads (spec.sort_key cursor.old) result cursor.new }
{
    let target = ident(alloc, cursor)?;
    let down = direction(cursor)?;
    Ok(KeyForm { target, down })
}

#[tactic(auto, unfolding(crate::specs::Loop::listed, crate::specs::Loop::more_items, crate::specs::Loop::repeat, crate::specs::Loop::turns))]
fn key_list(alloc: Global, cursor: &mut Cursor<'_>) -> Result<KeyFormList, Halt>
    ensures { Reads (listed spec.sort_key cursor.old) result cursor.new }
{
    let mut found = Vec::new(alloc);
    found.push(sort_key(alloc, cursor)?)?;
    for _turn in 0..cursor.left() {
        match cursor.peek() {
            Class::Mark(Sign::Comma) => {
                cursor.take()?;
                found.push(sort_key(alloc, cursor)?)?;
            }
            _ => return Ok(Sequence::from_vec(found)),
        }
    }
    Ok(Sequence::from_vec(found))
}

#[tactic(auto, unfolding(crate::specs::Script::keys, crate::specs::Input::or_none))]
fn keys(alloc: Global, cursor: &mut Cursor<'_>) -> Result<KeyFormList, Halt>
    ensures { Reads (spec.keys cursor.old) result cursor.new }
{
    if !cursor.is_at(Key::Sort) {
        return Ok(Sequence::new(alloc));
    }
    cursor.take()?;
    cursor.expect_key(Key::By)?;
    key_list(alloc, cursor)
}

#[tactic(auto, unfolding(crate::specs::Script::unique, crate::specs::Input::or_none))]
fn unique(cursor: &mut Cursor<'_>) -> Result<bool, Halt>
    ensures { Reads (spec.unique cursor.old) result cursor.new }
{
    if !cursor.is_at(Key::Unique) {
        return Ok(false);
    }
    cursor.take()?;
    Ok(true)
}

#[tactic(auto, unfolding(crate::specs::Script::kept, crate::specs::Input::or_none))]
fn kept(alloc: Global, cursor: &mut Cursor<'_>) -> Result<Option<IntoForm>, Halt>
    ensures { Reads (spec.kept cursor.old) result cursor.new }
{
    if !cursor.is_at(Key::Into) {
        return Ok(None);
    }
    let spot = cursor.take()?.spot;
    let name = ident(alloc, cursor)?;
    Ok(Some(IntoForm { spot, name }))
}

#[tactic(auto, unfolding(crate::specs::Script::closing))]
fn closing(
    alloc: Global,
    cursor: &mut Cursor<'_>,
    unique: bool,
    into: Option<IntoForm>,
    targets: TargetFormList,
) -> Result<Statement, Halt>
    ensures { ReadsAs sentence_of (spec.closing unique into (map wish_of targets) cursor.old) result cursor.new }
{
    cursor.expect(Sign::Right)?;
    let ranges = ranges(alloc, cursor)?;
    let test = test(alloc, cursor)?;
    let keys = keys(alloc, cursor)?;
    cursor.expect(Sign::Go)?;
    Ok(Statement {
        unique,
        into,
        targets,
        ranges,
        test,
        keys,
    })
}

/// A statement, from `retrieve` up to `\g`.
#[tactic(auto, unfolding(crate::specs::Script::statement))]
pub fn statement(alloc: Global, cursor: &mut Cursor<'_>) -> Result<Statement, Halt>
    ensures { ReadsAs sentence_of (spec.statement cursor.old) result cursor.new }
{
    cursor.expect_key(Key::Retrieve)?;
    let unique = unique(cursor)?;
    let into = kept(alloc, cursor)?;
    cursor.expect(Sign::Left)?;
    let targets = targets(alloc, cursor)?;
    closing(alloc, cursor, unique, into, targets)
}
