//! Reads the entries of a catalogue, one token after the other. The form has no nesting, so what may
//! come next is told by the place in an entry alone.

ghost use Rattle.std.specs.Prelude.{◌≡◌, ◌∷◌, ◌++◌, [], IfErr, OnOk, Some};
ghost use Rattle.catalog_load.specs.declared.words.Halt.TheVariants.{NoMemory};
ghost use Rattle.catalog_load.specs.declared.machine.Place.TheVariants as place_is;
ghost use Rattle.catalog_load.specs.Machine as spec;
ghost use Rattle.catalog_load.specs.Machine.{Finds, Steps, Told};

use crate::form::{ColumnForm, RelationForm};
use crate::words::{Halt, column_type, is_mark, is_word, name, quoted};
use lists::Sequence;
use postquel_tokens::{Ident, Sign, Spot, TextErr, Token, What};
use rows::Text;
use std::alloc::Global;

/// What the next token is to be, and what stands before it in its entry.
#[derive(Drop)]
pub enum Place {
    Relation,
    Name,
    From {
        name: Ident,
    },
    File {
        name: Ident,
    },
    Open {
        entry: RelationForm,
    },
    Column {
        entry: RelationForm,
    },
    Equal {
        entry: RelationForm,
        name: Ident,
    },
    Type {
        entry: RelationForm,
        name: Ident,
    },
    BehindType {
        entry: RelationForm,
        column: ColumnForm,
    },
    BehindNull {
        entry: RelationForm,
        column: ColumnForm,
    },
    BehindColumns {
        entry: RelationForm,
    },
    Index {
        entry: RelationForm,
    },
}

// The entry with one column more.
fn with_column(entry: RelationForm, column: ColumnForm) -> Result<RelationForm, Halt>
    ensures { Finds result (Some (spec.with_column entry column)) }
{
    let mut entry = entry;
    if entry.columns.push(column).is_err() {
        return Err(Halt::NoMemory);
    }
    Ok(entry)
}

// Behind a column: a comma and a further one, or the closing parenthesis.
fn behind_column(entry: RelationForm, column: ColumnForm, token: &Token) -> Result<Place, Halt>
    ensures { Finds result (spec.behind_column entry column token.now) }
{
    if is_mark(token, Sign::Comma) {
        let entry = with_column(entry, column)?;
        Ok(Place::Column { entry })
    } else if is_mark(token, Sign::Right) {
        let entry = with_column(entry, column)?;
        Ok(Place::BehindColumns { entry })
    } else {
        Err(Halt::Unexpected)
    }
}

// Behind a column's type: `null`, or what stands behind a column.
fn behind_type(entry: RelationForm, column: ColumnForm, token: &Token) -> Result<Place, Halt>
    ensures { Finds result (spec.behind_type entry column token.now) }
{
    if !is_word(token, b"null") {
        return behind_column(entry, column, token);
    }
    let ColumnForm { name, col_type, .. } = column;
    let column = ColumnForm {
        name,
        col_type,
        nullable: true,
    };
    Ok(Place::BehindNull { entry, column })
}

// Adds an entry.
fn add(entries: &mut Vec<RelationForm>, entry: RelationForm) -> Result<(), Halt>
    ensures added { OnOk result (entries.new.items ≡ entries.old.items ++ entry ∷ []) }
    ensures memory { IfErr result (λ e. e ≡ NoMemory) }
{
    entries.push(entry)?;
    Ok(())
}

// Behind the columns: an index, or the end of the entry.
fn behind_columns(
    entries: &mut Vec<RelationForm>,
    entry: RelationForm,
    token: &Token,
) -> Result<Place, Halt>
    ensures { Steps entries.new.items result (spec.behind_columns entries.old.items entry token.now) }
{
    if is_word(token, b"index") {
        return Ok(Place::Index { entry });
    }
    if !is_word(token, b"relation") {
        return Err(Halt::Unexpected);
    }
    add(entries, entry)?;
    Ok(Place::Name)
}

// The column of an index.
fn indexed(
    alloc: Global,
    entries: &mut Vec<RelationForm>,
    entry: RelationForm,
    token: &Token,
) -> Result<Place, Halt>
    ensures { Steps entries.new.items result (spec.indexed entries.old.items entry token.now) }
{
    let column = name(alloc, token)?;
    let RelationForm {
        name,
        file,
        columns,
        ..
    } = entry;
    let index = Some(column);
    let entry = RelationForm {
        name,
        file,
        columns,
        index,
    };
    add(entries, entry)?;
    Ok(Place::Relation)
}

// What a token leads to.
fn step(
    alloc: Global,
    entries: &mut Vec<RelationForm>,
    place: Place,
    token: &Token,
) -> Result<Place, Halt>
    ensures { Steps entries.new.items result (spec.step entries.old.items place token.now) }
{
    match place {
        Place::BehindColumns { entry } => behind_columns(entries, entry, token),
        Place::Index { entry } => indexed(alloc, entries, entry, token),
        place => within(alloc, place, token),
    }
}

// What a token inside of an entry leads to.
fn within(alloc: Global, place: Place, token: &Token) -> Result<Place, Halt>
    ensures { Finds result (spec.within place token.now) }
{
    let next = match place {
        Place::Name => Place::From {
            name: name(alloc, token)?,
        },
        Place::File { name } => Place::Open {
            entry: RelationForm {
                name,
                file: quoted(alloc, token)?,
                columns: Sequence::new(alloc),
                index: None,
            },
        },
        Place::Column { entry } => Place::Equal {
            entry,
            name: name(alloc, token)?,
        },
        Place::Type { entry, name } => Place::BehindType {
            entry,
            column: ColumnForm {
                name,
                col_type: column_type(token)?,
                nullable: false,
            },
        },
        Place::BehindType { entry, column } => return behind_type(entry, column, token),
        Place::BehindNull { entry, column } => return behind_column(entry, column, token),
        place => return fixed(place, token),
    };
    Ok(next)
}

// What a token that is told beforehand leads to.
fn fixed(place: Place, token: &Token) -> Result<Place, Halt>
    ensures { Finds result (spec.fixed place token.now) }
{
    match place {
        Place::Relation if is_word(token, b"relation") => Ok(Place::Name),
        Place::From { name } if is_word(token, b"from") => Ok(Place::File { name }),
        Place::Open { entry } if is_mark(token, Sign::Left) => Ok(Place::Column { entry }),
        Place::Equal { entry, name } if is_mark(token, Sign::Equal) => {
            Ok(Place::Type { entry, name })
        }
        _ => Err(Halt::Unexpected),
    }
}

// The entries, where the text may end at the place.
fn finished(
    entries: Vec<RelationForm>,
    place: Place,
    end: Spot,
) -> Result<Vec<RelationForm>, TextErr>
    ensures { Told (λ v. v.items) end result (spec.or_end (spec.finish entries.items place)) }
{
    match place {
        Place::Relation => Ok(entries),
        Place::BehindColumns { entry } => {
            let mut entries = entries;
            entries.push(entry)?;
            Ok(entries)
        }
        _ => Err(TextErr::at(end, What::Unexpected)),
    }
}

/// The entries that the tokens before the end say, or `Unexpected` at the first token with which no
/// catalogue goes on.
#[tactic(auto, unfolding(crate::specs::Machine::run))]
pub fn entries(alloc: Global, tokens: &[Token], end: Spot) -> Result<Vec<RelationForm>, TextErr>
    ensures { Told (λ v. v.items) end result (spec.run [] place_is.Relation tokens.now) }
{
    let mut entries = Vec::new(alloc);
    let mut place = Place::Relation;
    for token in tokens {
        place = match step(alloc, &mut entries, place, token) {
            Ok(place) => place,
            Err(Halt::Unexpected) => return Err(TextErr::at(token.spot, What::Unexpected)),
            Err(Halt::NoMemory) => return Err(TextErr::NoMemory),
        };
    }
    finished(entries, place, end)
}
