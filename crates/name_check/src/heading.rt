ghost use Rattle.std.specs.Prelude.{◌≡◌, ◌<◌, length, position, List, ℕ, IfOk, IfErr, IfSome};
ghost use Rattle.name_check.specs.Places.{place_by, same};

use lists::{Duplicate, Sequence};
use postquel_tokens::TextErr;
use rel_meaning::Var;
use rows::{LayoutColumn, Text};
use std::alloc::{AllocError, Global};

/// A column that a script may name.
#[derive(Drop)]
pub(crate) struct HeadColumn {
    pub name: Text,
    pub layout: LayoutColumn,
}

pub(crate) type HeadColumnList = Sequence<HeadColumn>;

/// A relation that a script may name, of the catalogue or kept by an earlier statement.
#[derive(Drop)]
pub(crate) struct Heading {
    pub name: Text,
    pub columns: HeadColumnList,
}

/// A copy of columns.
pub(crate) fn copies(alloc: Global, columns: &[HeadColumn]) -> Result<HeadColumnList, AllocError>
    ensures { IfOk result (λ list. list ≡ columns.now) }
{
    let mut list = Vec::new(alloc);
    for column in columns {
        list.push(HeadColumn {
            name: column.name.duplicate(alloc)?,
            layout: column.layout,
        })?;
    }
    Ok(Sequence::from_vec(list))
}

// A place as a number; lists with more places than that have no room in memory.
pub(crate) fn number(place: usize) -> Result<u32, TextErr>
    ensures ok { IfOk result (λ n. n ≡ place) }
    ensures err { IfErr result (λ e. e ≡ TextErr.NoMemory) }
{
    if place < 0x1_0000_0000 {
        Ok(place as u32)
    } else {
        Err(TextErr::NoMemory)
    }
}

/// What has a name.
pub(crate) trait Named {
    ghost name_of: { Self → List ℕ };

    fn name(&self) -> &Text
        ensures { result.now ≡ name_of self.now };
}

impl Named for Heading {
    ghost name_of = { λ heading. heading.name };

    fn name(&self) -> &Text {
        &self.name
    }
}

impl Named for HeadColumn {
    ghost name_of = { λ column. column.name };

    fn name(&self) -> &Text {
        &self.name
    }
}

impl Named for Var {
    ghost name_of = { λ v. v.name };

    fn name(&self) -> &Text {
        &self.name
    }
}

fn position_of<T: Named>(items: &[T], name: &Text) -> Option<usize>
    ensures { result ≡ position (λ item. same (T.name_of item) name.now) items.now }
{
    items.iter().position(|item| *item.name() == *name)
}

// The place of the first of that name.
#[tactic(auto, using(crate::proofs::Places::place_is, crate::proofs::Places::place_within))]
pub(crate) fn place_of<T: Named>(items: &[T], name: &Text) -> Option<usize>
    ensures place { result ≡ place_by (λ item. same (T.name_of item) name.now) items.now }
    ensures within { IfSome result (λ place. place < length items.now) }
{
    position_of(items, name)
}
