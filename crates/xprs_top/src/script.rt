//! What the bytes of a catalogue and of a script are read as.
ghost use Rattle.std.specs.Prelude.{◌≡◌, ◌≤◌, All, IfOk, length, map};
ghost use Rattle.postquel.specs.Program.{program_of};
ghost use Rattle.catalog_load.specs.Limits.{HasLimits};
ghost use Rattle.catalog_load.specs.Readings as catalog;
ghost use Rattle.name_check.specs.Machine.{machine_steps};
ghost use Rattle.name_check.specs.FoldFit.{questions_of};
ghost use Rattle.name_check.specs.Resolved.{MayAskEach};
ghost use Rattle.name_check.specs.Sentences.{HasNoFault, HasNumbers, heading_of, queries_of};
ghost use Rattle.rel_meaning.specs.Expression.{question_of};
ghost use Rattle.xprs_top.specs.Inputs.{Finds, IsParsed, checked_of};
ghost use Rattle.xprs_top.specs.Tasks.{HasIndexColumn, MayServe};
ghost use Rattle.xprs_top.specs.Readings.{InFile, IsProgram, Just, Then, check_of, checked_in};

use crate::Status;
use crate::refusal::text_refusal;
use catalog_load::read_catalog;
use name_check::{
    FoldTable, HeaderList, KeptList, QueryList, folds_of, headers_of, kept_of, machine_of, resolve,
};
use postquel::{Script, TextErr, lex, parse};
use rows::{Catalog, StepList};
use std::alloc::Global;

/// A script that passed all checks, the steps of its machine line, its queries, the names that head
/// their answers, what its statements keep, and their folds.
#[derive(Drop)]
pub(crate) struct ReadScript {
    pub script: Script,
    pub steps: StepList,
    pub queries: QueryList,
    pub headers: HeaderList,
    pub kept: KeptList,
    pub folds: FoldTable,
}

/// The catalogue that the bytes of a file are.
pub(crate) fn catalog_in(alloc: Global, name: &[u8], bytes: &[u8]) -> Result<Catalog, Status>
    requires { length bytes.now ≤ 67108864 }
    ensures value { Finds (λ c. c) result (InFile name.now (catalog.IsReading bytes.now)) }
    ensures limits { IfOk result HasLimits }
    ensures indexes { IfOk result (All HasIndexColumn) }
{
    match read_catalog(alloc, bytes) {
        Ok(catalog) => Ok(catalog),
        Err(fault) => Err(text_refusal(alloc, name, fault)),
    }
}

fn parsed(alloc: Global, bytes: &[u8]) -> Result<Script, TextErr>
    requires { length bytes.now ≤ 67108864 }
    ensures value { IsParsed bytes.now result }
    ensures numbers { IfOk result (λ script. All HasNumbers (program_of script).sentences) }
    ensures few { IfOk result (λ script. length (program_of script).sentences ≤ 16) }
{
    let tokens = lex(alloc, bytes)?;
    parse(alloc, &tokens)
}

// The script that the bytes of a file are.
fn script_in(alloc: Global, name: &[u8], bytes: &[u8]) -> Result<Script, Status>
    requires { length bytes.now ≤ 67108864 }
    ensures value { Finds program_of result (InFile name.now (IsProgram bytes.now)) }
    ensures numbers { IfOk result (λ script. All HasNumbers (program_of script).sentences) }
    ensures few { IfOk result (λ script. length (program_of script).sentences ≤ 16) }
{
    match parsed(alloc, bytes) {
        Ok(script) => Ok(script),
        Err(fault) => Err(text_refusal(alloc, name, fault)),
    }
}

// The steps of a script's machine line.
fn steps_in(alloc: Global, name: &[u8], script: &Script) -> Result<StepList, Status>
    ensures { Finds (λ s. s) result (Just (checked_in name.now (machine_steps (program_of script.now).steps))) }
{
    match machine_of(alloc, script) {
        Ok(steps) => Ok(steps),
        Err(fault) => Err(text_refusal(alloc, name, fault)),
    }
}

// The queries of a script's statements.
fn queries_in(
    alloc: Global,
    name: &[u8],
    script: &Script,
    catalog: &Catalog,
) -> Result<QueryList, Status>
    requires { All HasNumbers (program_of script.now).sentences }
    ensures value { Finds (λ q. map question_of q) result (Just (checked_in name.now (queries_of (map heading_of catalog.now) (program_of script.now).sentences))) }
    ensures faultless { IfOk result (λ queries. HasNoFault catalog.now (program_of script.now).sentences) }
    ensures same { IfOk result (λ queries. questions_of catalog.now (program_of script.now).sentences ≡ map question_of queries) }
    ensures asked { IfOk result (λ queries. MayAskEach (map heading_of catalog.now) (program_of script.now).sentences) }
{
    match resolve(alloc, script, catalog) {
        Ok(queries) => Ok(queries),
        Err(fault) => Err(text_refusal(alloc, name, fault)),
    }
}

// A script with all its checks.
fn checked(
    alloc: Global,
    name: &[u8],
    script: Script,
    catalog: &Catalog,
) -> Result<ReadScript, Status>
    requires numbers { All HasNumbers (program_of script).sentences }
    requires few { length (program_of script).sentences ≤ 16 }
    ensures value { Finds (checked_of catalog.now) result (check_of catalog.now name.now (program_of script)) }
    ensures serve { IfOk result (MayServe catalog.now) }
{
    let steps = steps_in(alloc, name, &script)?;
    let queries = queries_in(alloc, name, &script, catalog)?;
    let headers = headers_of(alloc, &script, catalog)?;
    let kept = kept_of(alloc, &script, catalog)?;
    let folds = folds_of(alloc, &script, catalog)?;
    Ok(ReadScript {
        script,
        steps,
        queries,
        headers,
        kept,
        folds,
    })
}

/// The script that the bytes of a file are, with all its checks over a catalogue.
pub(crate) fn checked_script(
    alloc: Global,
    name: &[u8],
    bytes: &[u8],
    catalog: &Catalog,
) -> Result<ReadScript, Status>
    requires { length bytes.now ≤ 67108864 }
    ensures value { Finds (checked_of catalog.now) result (Then (InFile name.now (IsProgram bytes.now)) (check_of catalog.now name.now)) }
    ensures serve { IfOk result (MayServe catalog.now) }
{
    let script = script_in(alloc, name, bytes)?;
    checked(alloc, name, script, catalog)
}
