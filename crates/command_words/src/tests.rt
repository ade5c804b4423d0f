use crate::{FileNames, Job, Machine, Plans, Request, read_words};
use std::alloc::{AllocError, Global};
use std::test::Fail;

// Each line is the words, with one space between two of them, and what they ask for.
const TABLE: &str = "run cat q -> run cat q 4 4 64 8 Hash false
run cat q --backends=064 -> run cat q 64 4 64 8 Hash false
run --trace cat --join merge q --drives 16 -> run cat q 4 16 64 8 Merge true
alone cat q --frames=4096 --batch 64 --backends 1 -> alone cat q 1 4 4096 64 Hash false
alone cat q --frames=1 --batch=1 --drives=1 -> alone cat q 4 1 1 1 Hash false
alone - q -> alone - q 4 4 64 8 Hash false
run -- --cat -- -> run --cat -- 4 4 64 8 Hash false
run --join=hash -- -cat q -> run -cat q 4 4 64 8 Hash false
explain cat q --join=merge --backends 64 --drives 2 -> explain cat q 64 2 Merge
explain help q -> explain help q 4 4 Hash
check cat q -> check cat q
check run run -> check run run
gen 18446744073709551615 100000 --batch 2 -> gen 18446744073709551615 100000 4 4 64 2
gen 0 1 --drives=3 -> gen 0 1 4 3 64 8
gen 18446744073709551616 1 -> none
gen 1 0 -> none
gen 1 100001 -> none
gen -1 1 -> none
gen +1 1 -> none
gen 1 2 --join hash -> none
gen 1 -> none
run cat q --backends 0 -> none
run cat q --backends 65 -> none
run cat q --drives 17 -> none
run cat q --drives 0 -> none
run cat q --frames 4097 -> none
run cat q --batch 65 -> none
run cat q --backends 4294967297 -> none
run cat q --backends= -> none
run cat q --backends - -> none
run cat q --backends -3 -> none
run cat q --backends=-3 -> none
run cat q --backends=+3 -> none
run cat q --backends -- 3 -> none
run cat q --backends -> none
run cat q --backends 1 --backends 1 -> none
run cat q --trace --trace -> none
run cat q --trace=x -> none
run cat q --trac -> none
run cat q ---trace -> none
run cat q --=3 -> none
run cat q --join sort -> none
run cat q --help -> none
run cat q -h -> none
run cat q --version -> none
run cat -> none
run cat q r -> none
run cat -q -> none
check cat q --trace -> none
explain cat q --frames 1 -> none
explain cat q --trace -> none
Run cat q -> none
help -> none
cat run q -> none";

fn words_of(alloc: Global, line: &str) -> Result<Vec<String>, AllocError> {
    let mut words = Vec::new(alloc);
    for word in line.split(' ') {
        words.push(String::from_str(alloc, word)?)?;
    }
    Ok(words)
}

fn machine_text(alloc: Global, machine: Machine) -> Result<String, Fail> {
    let Machine {
        backends,
        drives,
        frames,
        batch,
    } = machine;
    Ok(format!(in alloc; "{backends} {drives} {frames} {batch}")?)
}

fn files_text(alloc: Global, files: FileNames<'_>) -> Result<String, Fail> {
    Ok(format!(in alloc; "{} {}", files.catalog, files.script)?)
}

fn job_text(alloc: Global, job: Job<'_>) -> Result<String, Fail> {
    let files = files_text(alloc, job.files)?;
    let machine = machine_text(alloc, job.machine)?;
    Ok(format!(in alloc; "{files} {machine} {:?} {}", job.join, job.is_traced)?)
}

fn plans_text(alloc: Global, plans: Plans<'_>) -> Result<String, Fail> {
    let files = files_text(alloc, plans.files)?;
    Ok(format!(in alloc;
        "{files} {} {} {:?}",
        plans.backends, plans.drives, plans.join
    )?)
}

fn request_text(alloc: Global, request: Option<Request<'_>>) -> Result<String, Fail> {
    match request {
        None => Ok(format!(in alloc; "none")?),
        Some(Request::Run(job)) => Ok(format!(in alloc; "run {}", job_text(alloc, job)?)?),
        Some(Request::Alone(job)) => Ok(format!(in alloc; "alone {}", job_text(alloc, job)?)?),
        Some(Request::Explain(plans)) => {
            Ok(format!(in alloc; "explain {}", plans_text(alloc, plans)?)?)
        }
        Some(Request::Check(files)) => Ok(format!(in alloc;
            "check {}",
            files_text(alloc, files)?
        )?),
        Some(Request::Gen(made)) => {
            let machine = machine_text(alloc, made.machine)?;
            Ok(format!(in alloc; "gen {} {} {machine}", made.number, made.rows)?)
        }
    }
}

#[test]
fn words_ask_for_what_the_table_says(rt: HostRuntime) -> Result<(), Fail> {
    let alloc = rt.alloc();
    assert!(rt; read_words(alloc, &[])?.is_none());
    for line in TABLE.lines() {
        let (words, wanted) = line.split_once(" -> ").ok_or("a line has no answer")?;
        let words = words_of(alloc, words)?;
        let text = request_text(alloc, read_words(alloc, words.as_slice())?)?;
        assert_eq!(rt; text.as_str(), wanted, "{line}");
    }
    Ok(())
}
