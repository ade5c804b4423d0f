//! Catalogues.

ghost use Rattle.std.specs.Prelude.{◌≡◌, ◌<◌, ◌-◌, ◌^◌, length, IfOk};
ghost use Rattle.catalog_load.specs.Limits.{HasLimits};
ghost use Rattle.catalog_load.specs.Readings.{OneCatalog, Tells, WritesOr};

use crate::checks::relations;
use crate::form::RelationForm;
use crate::machine::entries;
use lists::Sequence;
use postquel_tokens::{TextErr, lex};
use rows::Catalog;
use std::alloc::Global;

// The entries of a catalogue's text.
fn written(alloc: Global, text: &[u8]) -> Result<Vec<RelationForm>, TextErr>
    requires { length text.now < 2 ^ 32 - 1 }
    ensures { WritesOr (λ v. v.items) text.now result }
{
    let tokens = lex(alloc, text)?;
    let Some((end, tokens)) = tokens.items().split_last() else {
        unreachable!()
    };
    entries(alloc, tokens, end.spot)
}

/// The relations that a catalogue's text writes, or its first fault with its place: that of its tokens;
/// else `Unexpected` at the first token with which no catalogue has the tokens so far as a prefix, or at
/// the end; else the first of its entries in order: `TooManyRelations` at the 17th, `DoubleRelation`,
/// `TooManyColumns` at the 33rd column and `DoubleColumn` column by column, and `NoColumn` for an
/// index, each at the name. A catalogue that is read has at most 16 relations, each of 1 to 32 columns.
pub fn read_catalog(alloc: Global, text: &[u8]) -> Result<Catalog, TextErr>
    requires { length text.now < 2 ^ 32 - 1 }
    ensures value { Tells text.now result }
    ensures few { IfOk result HasLimits }
{
    let entries = written(alloc, text)?;
    let relations = relations(alloc, entries.as_slice())?;
    Ok(Sequence::from_vec(relations))
}

/// A law: two readings of one text are equal, so each fault comes exactly where it is said to come. It
/// does nothing when it runs.
pub fn one_catalog()
    ensures { OneCatalog }
{}
