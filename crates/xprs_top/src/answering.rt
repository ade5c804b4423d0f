//! Answers from tables on drives.
ghost use Rattle.std.specs.Prelude.{◌≡◌, ◌++◌, ◌≤◌, ℕ, length, map, All, IfOk};
ghost use Rattle.std.specs.List.{flat_map};
ghost use Rattle.rel_meaning.specs.Meaning.{IsTable};
ghost use Rattle.table_store.specs.Databases.{AllFresh};
ghost use Rattle.xprs_top.specs.Answers.{answer_of, answers_bytes, keeps, next_answer, shown};
ghost use Rattle.xprs_top.specs.declared.goal.Goal.TheVariants.{Answers};
ghost use Rattle.xprs_top.specs.Counts.{NoOtherFailed, failed_drive};
ghost use Rattle.xprs_top.specs.Devices.{Makes};
ghost use Rattle.xprs_top.specs.Inputs.{read_of};
ghost use Rattle.xprs_top.specs.Readings.{over};
ghost use Rattle.xprs_top.specs.Requests.{HasMachine};
ghost use Rattle.xprs_top.specs.Shown.{answer_by};
ghost use Rattle.xprs_top.specs.Tasks.{AreOver, IsAnswerable};
ghost use Rattle.xprs_top.specs.Texts.{Answered};

use crate::Status;
use crate::goal::Aim;
use crate::input::Checked;
use crate::made::Made;
use crate::spelling::answer_text;
use heap_page::block_laws;
use kept_answers::{FoldedAnswers, answer_folded_script};
use name_check::{Header, Kept};
use rel_meaning::Database;
use rows::{Machine, Rows};
use std::alloc::{AllocError, Global};
use table_store::{lay_database, read_database};
use xp_outside::Drive;

// An answer that is shown: the names that head it, and its rows.
#[derive(Clone, Copy)]
struct Shown<'a> {
    header: &'a Header,
    rows: &'a Rows,
}

// Whether the answer of a statement is kept.
fn keeps(kept: &[Kept], statement: usize) -> bool
    ensures { result ≡ keeps kept.now statement }
{
    kept.iter().any(|k| k.statement as usize == statement)
}

// The answers of the statements that don't keep theirs.
fn shown_answers<'a>(
    alloc: Global,
    kept: &[Kept],
    headers: &'a [Header],
    answers: &'a [Rows],
) -> Result<Vec<Shown<'a>>, AllocError>
    requires { length answers.now ≤ length headers.now }
    ensures { IfOk result (λ v. map answer_by v.items ≡ shown kept.now headers.now answers.now) }
{
    let mut found = Vec::new(alloc);
    for (statement, rows) in answers.iter().enumerate() {
        if !keeps(kept, statement) {
            found.push(Shown {
                header: &headers[statement],
                rows,
            })?;
        }
    }
    Ok(found)
}

// Adds answers to a text, each behind an empty line.
fn with_answers(alloc: Global, text: Vec<u8>, answers: &[Shown<'_>]) -> Result<Vec<u8>, AllocError>
    ensures { IfOk result (λ v. v.items ≡ text.items ++ flat_map (λ a. next_answer (answer_by a)) answers.now) }
{
    let mut text = text;
    for answer in answers {
        text.push(b'\n')?;
        text = answer_text(alloc, text, answer.header, answer.rows)?;
    }
    Ok(text)
}

// The text of answers.
fn answers_text(alloc: Global, answers: &[Shown<'_>]) -> Result<Vec<u8>, AllocError>
    ensures { IfOk result (λ v. v.items ≡ answers_bytes (map answer_by answers.now)) }
{
    let Some((first, rest)) = answers.split_first() else {
        return Ok(Vec::new(alloc));
    };
    let text = answer_text(alloc, Vec::new(alloc), first.header, first.rows)?;
    with_answers(alloc, text, rest)
}

// The answers of a checked script over tables that were read, as a text.
fn answered_text(alloc: Global, checked: &Checked, db: Database) -> Result<Vec<u8>, Status>
    requires over { AreOver checked.now db }
    requires tables { All IsTable db }
    ensures { Answered (read_of checked.now) db result }
{
    let read = &checked.read;
    match answer_folded_script(alloc, db, &read.queries, &read.kept, &read.folds)? {
        FoldedAnswers::Rows(answers) => {
            let found = shown_answers(
                alloc,
                read.kept.items(),
                read.headers.items(),
                answers.items(),
            )?;
            Ok(answers_text(alloc, found.as_slice())?)
        }
        FoldedAnswers::TooLarge { statement } => Err(Status::TooLarge {
            statement: statement as u32 + 1,
        }),
    }
}

// The answers of a checked script over its tables, which are laid on drives and read back. The rows that are read
// take the places of those that were laid.
fn laid_answers<D: Drive>(
    alloc: Global,
    drives: &mut [D],
    machine: &Machine,
    checked: &Checked,
    db: Database,
) -> Result<Vec<u8>, Status>
    requires some { HasMachine (Aim.Make Answers machine.now) }
    requires count { length drives.old ≡ machine.now.drives }
    requires fresh { AllFresh D.Drive drives.old }
    requires answerable { IsAnswerable checked.now db }
    ensures count { length drives.new ≡ machine.now.drives }
    ensures made { (before now : ℕ) → Makes D.Drive (over Answers machine.now (read_of checked.now) db) before now drives.new result }
    ensures quiet { NoOtherFailed D.Drive (failed_drive result) drives.new }
{
    block_laws();
    let laid = match lay_database(alloc, drives, &checked.catalog, &db) {
        Ok(laid) => laid,
        Err(error) => return Err(Status::from(error)),
    };
    let db = match read_database(alloc, drives, &laid, &checked.catalog, db) {
        Ok(db) => db,
        Err(error) => return Err(Status::from(error)),
    };
    answered_text(alloc, checked, db)
}

/// The answers of a checked script over its tables, by way of these drives.
pub(crate) fn answered<D: Drive>(
    alloc: Global,
    drives: Vec<D>,
    machine: &Machine,
    checked: &Checked,
    db: Database,
) -> Made<D>
    requires some { HasMachine (Aim.Make Answers machine.now) }
    requires count { length drives.items ≡ machine.now.drives }
    requires fresh { AllFresh D.Drive drives.items }
    requires answerable { IsAnswerable checked.now db }
    ensures count { length result.drives.items ≡ machine.now.drives }
    ensures made { (before now : ℕ) → Makes D.Drive (over Answers machine.now (read_of checked.now) db) before now result.drives.items result.text }
    ensures quiet { NoOtherFailed D.Drive (failed_drive result.text) result.drives.items }
{
    let mut drives = drives;
    let text = laid_answers(alloc, drives.as_mut_slice(), machine, checked, db);
    Made { text, drives }
}
