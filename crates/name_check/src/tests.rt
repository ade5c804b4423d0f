ghost use Rattle.std.specs.Prelude.{IfOk, All};
ghost use Rattle.postquel.specs.Program.{program_of};
ghost use Rattle.postquel.specs.Reading.{IsLexed};
ghost use Rattle.name_check.specs.Sentences.{HasNumbers};

use crate::{
    FoldOp, FoldPlace, FoldPlan, FoldTable, Header, HeaderList, Kept, KeptList, folds_of, has_fold,
    has_into, headers_of, kept_of, machine_of, numbers_fit, resolve,
};
use lists::Sequence;
use postquel::{Script, lex, parse};
use postquel_tokens::{TextErr, TokenList};
use rows::{Catalog, ColType, Column, Relation, SortKey, Text};
use std::alloc::Global;
use std::test::Fail;

// Each line is a script and what is said of it. The places and bounds were computed apart from this program.
const TABLE: &str = "retrieve into K (n = count(A.x)) \\g -> FoldInto at 1:10
retrieve into A (A.x) \\g -> DoubleRelation at 1:15
retrieve into K (A.x) \\g retrieve into K (A.x) \\g -> DoubleRelation at 1:40
retrieve (x = 1) from a in A, b in A, c in A, d in A, e in A, f in A, g in A \\g -> TooManyRanges at 1:71
retrieve (A.x) from a in A, b in A, c in A, d in A, e in A, f in A \\g -> TooManyRanges at 1:11
retrieve (a.x) from a in A, a in C \\g -> DoubleRange at 1:29
retrieve (a.x) from a in C \\g -> NoRelation at 1:26
retrieve into K (K.x) \\g -> NoRange at 1:18
retrieve (b.x) from a in A, b in B \\g -> NoColumn at 1:13
retrieve (n = A.x + A.y) \\g -> TypeMismatch at 1:19
retrieve (n = A.x < A.y) \\g -> TypeMismatch at 1:19
retrieve (A.x) where A.x \\g -> TypeMismatch at 1:16
retrieve (n = sum(A.y)) \\g -> TypeMismatch at 1:15
retrieve (n = A.x * A.x * A.x) \\g -> TooWide(9903520314283042199192993792) at 1:25
retrieve into K (n = A.x * A.x) \\g retrieve (m = K.n + K.n) \\g -> TooWide(9223372036854775808) at 1:54
retrieve (A.x, x = 1) \\g -> DoubleTarget at 1:16
retrieve (A.x, x = C.y) \\g -> NoRange at 1:20
retrieve into K (a=1, b=1, c=1, d=1, e=1, f=1, g=1, h=1, i=1, j=1, k=1, l=1, m=1, n=1, o=1, p=1, q=1, r=1, s=1, t=1, u=1, v=1, w=1, x=1, y=1, z=1, A=1, B=1, C=1, D=1, E=1, F=1, G=1) \\g -> TooManyColumns at 1:178
retrieve (A.x) where A.b sort by x, y \\g -> NoSortTarget at 1:37
machine 64 after 1, 65 after 1 \\g -> BadDegree at 1:21
machine 2 after 5, 3 after 5 \\g -> BadStep at 1:28
machine 1 after 1001 \\g retrieve (C.x) \\g -> BadStep at 1:17
machine 64 after 1, 1 after 1000 \\g retrieve unique into K (A.all, n = A.x * A.x + 4611686018427387903) from a in A where A.b and A.y = \"q\" sort by n using >, x \\g retrieve (K.n, s = sum(k.n)) from k in K where not k.b or k.y is null \\g -> 2 steps, 2 queries, fold true, into true";

fn column(alloc: Global, name: &str, col_type: ColType) -> Result<Column, TextErr> {
    Ok(Column {
        name: Text::from_slice(alloc, name.as_bytes())?,
        col_type,
        nullable: true,
    })
}

fn relation(alloc: Global, name: &str, columns: Vec<Column>) -> Result<Relation, TextErr> {
    Ok(Relation {
        name: Text::from_slice(alloc, name.as_bytes())?,
        file: Text::from_slice(alloc, b"f")?,
        columns: Sequence::from_vec(columns),
        index: None,
    })
}

// A (x = int4, y = text, b = bool) and B (z = int4).
fn catalog(alloc: Global) -> Result<Catalog, TextErr> {
    let mut first = Vec::new(alloc);
    first.push(column(alloc, "x", ColType::Int4)?)?;
    first.push(column(alloc, "y", ColType::Text)?)?;
    first.push(column(alloc, "b", ColType::Bool)?)?;
    let mut second = Vec::new(alloc);
    second.push(column(alloc, "z", ColType::Int4)?)?;
    let mut relations = Vec::new(alloc);
    relations.push(relation(alloc, "A", first)?)?;
    relations.push(relation(alloc, "B", second)?)?;
    Ok(Sequence::from_vec(relations))
}

fn parsed(alloc: Global, tokens: &TokenList) -> Result<Script, TextErr>
    requires { IsLexed tokens.now }
    ensures { IfOk result (λ script. All HasNumbers (program_of script).sentences) }
{
    numbers_fit();
    parse(alloc, tokens)
}

fn read(alloc: Global, text: &[u8]) -> Result<Script, TextErr>
    ensures { IfOk result (λ script. All HasNumbers (program_of script).sentences) }
{
    if text.len() > 10_000 {
        return Err(TextErr::NoMemory);
    }
    let tokens = lex(alloc, text)?;
    parsed(alloc, &tokens)
}

fn answer(alloc: Global, text: &[u8]) -> Result<String, TextErr> {
    let script = read(alloc, text)?;
    let steps = machine_of(alloc, &script)?.len();
    let queries = resolve(alloc, &script, &catalog(alloc)?)?.len();
    let (fold, into) = (has_fold(&script), has_into(&script));
    Ok(format!(in alloc; "{steps} steps, {queries} queries, fold {fold}, into {into}")?)
}

fn answer_text(alloc: Global, text: &[u8]) -> Result<String, Fail> {
    match answer(alloc, text) {
        Ok(text) => Ok(text),
        Err(TextErr::Fault { line, col, what }) => {
            Ok(format!(in alloc; "{what:?} at {line}:{col}")?)
        }
        Err(TextErr::NoMemory) => Err(Fail::from("no memory")),
    }
}

#[test]
fn each_script_has_its_first_fault_or_its_queries(rt: HostRuntime) -> Result<(), Fail> {
    for line in TABLE.lines() {
        let (script, wanted) = line.split_once(" -> ").ok_or("a line has no answer")?;
        let text = answer_text(rt.alloc(), script.as_bytes())?;
        assert_eq!(rt; text.as_str(), wanted, "{script}");
    }
    Ok(())
}

// Each line is a script, then the folds of its statements, their headers, and what they keep.
const LISTED: &str =
    "retrieve (n = count(A.x), A.y, m = min(A.x), z = A.b) sort by m using >, y \\g -> groups 2 ops Count Min places o0 g0 o1 g1 keys 2> 1<;header n y m z;
retrieve (A.all, most = max(A.x)) \\g -> groups 3 ops Max places g0 g1 g2 o0 keys;header x y b most;
retrieve (s = sum(A.x), c = count(A.y)) sort by c \\g retrieve (a.all, n = 1) from a in A sort by y \\g -> groups 0 ops Sum Count places o0 o1 keys 1<;no fold;header s c;header x y b n;
retrieve into K (A.all, n = A.x * 3) \\g retrieve into L (K.n, m = K.x + K.n) \\g retrieve (k.all, low = min(L.m)) from k in L \\g -> no fold;no fold;groups 2 ops Min places g0 g1 o0 keys;header x y b n;header n m;header n m low;K of 0: x Int4 y Text b Bool n Int4 within 2147483648 0 0 6442450944;L of 1: n Int4 m Int4 within 6442450944 8589934592;";

fn spelled(alloc: Global, name: &Text) -> Result<String, TextErr> {
    let mut text = String::new(alloc);
    for byte in name.items() {
        text.push(char::from(*byte))?;
    }
    Ok(text)
}

fn place_text(alloc: Global, text: String, place: FoldPlace) -> Result<String, TextErr> {
    match place {
        FoldPlace::Group(number) => Ok(format!(in alloc; "{text} g{number}")?),
        FoldPlace::Op(number) => Ok(format!(in alloc; "{text} o{number}")?),
    }
}

fn key_text(alloc: Global, text: String, key: SortKey) -> Result<String, TextErr> {
    let mark = if key.down { '>' } else { '<' };
    Ok(format!(in alloc; "{text} {}{mark}", key.column)?)
}

fn ops_text(alloc: Global, ops: &[FoldOp]) -> Result<String, TextErr> {
    let mut text = String::new(alloc);
    for op in ops {
        text = format!(in alloc; "{text} {op:?}")?;
    }
    Ok(text)
}

fn places_text(alloc: Global, places: &[FoldPlace]) -> Result<String, TextErr> {
    let mut text = String::new(alloc);
    for place in places {
        text = place_text(alloc, text, *place)?;
    }
    Ok(text)
}

fn keys_text(alloc: Global, keys: &[SortKey]) -> Result<String, TextErr> {
    let mut text = String::new(alloc);
    for key in keys {
        text = key_text(alloc, text, *key)?;
    }
    Ok(text)
}

fn fold_text(alloc: Global, plan: &Option<FoldPlan>) -> Result<String, TextErr> {
    let Some(plan) = plan else {
        return Ok(format!(in alloc; "no fold;")?);
    };
    let groups = plan.fold.groups;
    let ops = ops_text(alloc, plan.fold.ops.items())?;
    let places = places_text(alloc, plan.fold.places.items())?;
    let keys = keys_text(alloc, plan.keys.items())?;
    Ok(format!(in alloc; "groups {groups} ops{ops} places{places} keys{keys};")?)
}

fn header_text(alloc: Global, header: &Header) -> Result<String, TextErr> {
    let mut text = format!(in alloc; "header")?;
    for name in header.items() {
        let name = spelled(alloc, name)?;
        text = format!(in alloc; "{text} {name}")?;
    }
    text.push_str(";")?;
    Ok(text)
}

fn columns_text(alloc: Global, columns: &[Column]) -> Result<String, TextErr> {
    let mut text = String::new(alloc);
    for column in columns {
        let name = spelled(alloc, &column.name)?;
        text = format!(in alloc; "{text} {name} {:?}", column.col_type)?;
    }
    Ok(text)
}

fn bounds_text(alloc: Global, bounds: &[u64]) -> Result<String, TextErr> {
    let mut text = String::new(alloc);
    for bound in bounds {
        text = format!(in alloc; "{text} {bound}")?;
    }
    Ok(text)
}

fn one_kept_text(alloc: Global, kept: &Kept) -> Result<String, TextErr> {
    let name = spelled(alloc, &kept.name)?;
    let columns = columns_text(alloc, kept.columns.items())?;
    let bounds = bounds_text(alloc, kept.bounds.items())?;
    Ok(format!(in alloc; "{name} of {}:{columns} within{bounds};", kept.statement)?)
}

fn folds_text(alloc: Global, plans: &[Option<FoldPlan>]) -> Result<String, TextErr> {
    let mut text = String::new(alloc);
    for plan in plans {
        text.push_str(fold_text(alloc, plan)?.as_str())?;
    }
    Ok(text)
}

fn headers_text(alloc: Global, headers: &[Header]) -> Result<String, TextErr> {
    let mut text = String::new(alloc);
    for header in headers {
        text.push_str(header_text(alloc, header)?.as_str())?;
    }
    Ok(text)
}

fn kept_text(alloc: Global, list: &[Kept]) -> Result<String, TextErr> {
    let mut text = String::new(alloc);
    for kept in list {
        text.push_str(one_kept_text(alloc, kept)?.as_str())?;
    }
    Ok(text)
}

// The folds of a script, its headers, and what it keeps.
fn parts(
    alloc: Global,
    script: &Script,
    catalog: &Catalog,
) -> Result<(FoldTable, HeaderList, KeptList), TextErr>
    requires { All HasNumbers (program_of script.now).sentences }
{
    resolve(alloc, script, catalog)?;
    let plans = folds_of(alloc, script, catalog)?;
    let headers = headers_of(alloc, script, catalog)?;
    let kept = kept_of(alloc, script, catalog)?;
    Ok((plans, headers, kept))
}

fn listed(alloc: Global, text: &[u8]) -> Result<String, TextErr> {
    let script = read(alloc, text)?;
    let catalog = catalog(alloc)?;
    let (plans, headers, kept) = parts(alloc, &script, &catalog)?;
    let mut text = folds_text(alloc, plans.items())?;
    text.push_str(headers_text(alloc, headers.items())?.as_str())?;
    text.push_str(kept_text(alloc, kept.items())?.as_str())?;
    Ok(text)
}

#[test]
fn each_script_has_its_folds_headers_and_kept_relations(rt: HostRuntime) -> Result<(), Fail> {
    for line in LISTED.lines() {
        let (script, wanted) = line.split_once(" -> ").ok_or("a line has no answer")?;
        let text = match listed(rt.alloc(), script.as_bytes()) {
            Ok(text) => text,
            Err(_) => return Err(Fail::from("a script was refused")),
        };
        assert_eq!(rt; text.as_str(), wanted, "{script}");
    }
    Ok(())
}
