ghost use Rattle.std.specs.Prelude.{◌≡◌, ◌<◌, ◌≤◌, ◌++◌, ◌*◌, ◌+◌, ◌^◌, IfOk, OnOk, codes, decimal};
ghost use Rattle.generated_input.specs.Draws.{next_state, state_after};
ghost use Rattle.generated_input.specs.Generated.{catalog_text, script_text};
ghost use Rattle.generated_input.specs.Generated.{department_line, departments, departments_text};
ghost use Rattle.generated_input.specs.Generated.{employee_line, employees_text};

use crate::draws::Draws;
use itoa::Buffer;
use rows::Text;
use std::alloc::{AllocError, Global};

const FLOORS: u32 = 10;

const SALARIES: u32 = 10_000;

const EMPLOYEES_A_DEPARTMENT: u32 = 100;

const CATALOG: &[u8] = b"\
relation DEPT from \"dept.csv\" (dno = int4, dname = text, floor = int4)
relation EMP from \"emp.csv\" (eno = int4, name = text, dno = int4, sal = int4) index eno
";

const SCRIPT: &[u8] = b"\
retrieve (e.name, d.dname) from e in EMP, d in DEPT where e.dno = d.dno and e.sal > 9000 \\g
retrieve unique (d.floor) from e in EMP, d in DEPT where e.dno = d.dno and e.eno < 100 \
sort by floor using > \\g
";

/// A catalogue, a script over it, and the two tables that it names, in CSV.
#[derive(Drop)]
pub struct GenInput {
    pub catalog: Text,
    pub script: Text,
    pub emp: Text,
    pub dept: Text,
}

fn push(out: &mut Vec<u8>, text: &[u8]) -> Result<(), AllocError>
    ensures { OnOk result (out.new.items ≡ out.old.items ++ text.now) }
{
    Ok(out.extend_from_slice(text)?)
}

fn push_number(out: &mut Vec<u8>, number: u32) -> Result<(), AllocError>
    ensures { OnOk result (out.new.items ≡ out.old.items ++ decimal number) }
{
    push(out, Buffer::new().format(number).as_bytes())
}

// A row's number, and its name, which is a letter and the number.
fn push_named(out: &mut Vec<u8>, number: u32, name: &[u8]) -> Result<(), AllocError>
    ensures { OnOk result (out.new.items
        ≡ out.old.items ++ decimal number ++ name.now ++ decimal number) }
{
    push_number(out, number)?;
    push(out, name)?;
    push_number(out, number)
}

fn push_field(out: &mut Vec<u8>, number: u32) -> Result<(), AllocError>
    ensures { OnOk result (out.new.items ≡ out.old.items ++ codes "," ++ decimal number) }
{
    push(out, b",")?;
    push_number(out, number)
}

fn push_department(out: &mut Vec<u8>, draws: &mut Draws, number: u32) -> Result<(), AllocError>
    ensures text { OnOk result (out.new.items
        ≡ out.old.items ++ department_line draws.old.state number) }
    ensures state { OnOk result (draws.new.state ≡ next_state draws.old.state) }
{
    push_named(out, number, b",d")?;
    push_field(out, draws.below(FLOORS))?;
    push(out, b"\n")
}

// The table of so many departments, and the draws behind it.
fn department_table(alloc: Global, draws: &mut Draws, count: u32) -> Result<Text, AllocError>
    ensures text { IfOk result (λ text. text ≡ departments_text draws.old.state count) }
    ensures state { OnOk result (draws.new.state ≡ state_after draws.old.state count) }
{
    let mut out = Vec::from_slice(alloc, b"dno,dname,floor\n")?;
    for number in 0..count {
        push_department(&mut out, draws, number)?;
    }
    Ok(Text::from_vec(out))
}

fn push_employee(
    out: &mut Vec<u8>,
    draws: &mut Draws,
    departments: u32,
    number: u32,
) -> Result<(), AllocError>
    requires { 0 < departments }
    ensures text { OnOk result (out.new.items
        ≡ out.old.items ++ employee_line draws.old.state departments number) }
    ensures state { OnOk result (draws.new.state ≡ next_state (next_state draws.old.state)) }
{
    push_named(out, number, b",e")?;
    push_field(out, draws.below(departments))?;
    push_field(out, draws.below(SALARIES))?;
    push(out, b"\n")
}

// The table of so many employees, by the draws from here on.
fn employee_table(
    alloc: Global,
    draws: &mut Draws,
    departments: u32,
    count: u32,
) -> Result<Text, AllocError>
    requires { 0 < departments }
    ensures { IfOk result (λ text. text ≡ employees_text draws.old.state departments count) }
{
    let mut out = Vec::from_slice(alloc, b"eno,name,dno,sal\n")?;
    for number in 0..count {
        push_employee(&mut out, draws, departments, number)?;
    }
    Ok(Text::from_vec(out))
}

/// The catalogue, the script and the tables that a number gives: so many employees, and a department
/// for each hundred of them and one more. The draws go through the departments first, one a row, and
/// then through the employees, two a row. An error is want of memory.
pub fn gen_input(alloc: Global, number: u64, count: u32) -> Result<GenInput, AllocError>
    ensures catalog { IfOk result (λ made. made.catalog ≡ catalog_text) }
    ensures script { IfOk result (λ made. made.script ≡ script_text) }
    ensures dept { IfOk result (λ made. made.dept ≡ departments_text number (departments count)) }
    ensures emp { IfOk result (λ made. made.emp
        ≡ employees_text (state_after number (departments count)) (departments count) count) }
{
    let departments = 1 + count / EMPLOYEES_A_DEPARTMENT;
    let mut draws = Draws { state: number };
    let dept = department_table(alloc, &mut draws, departments)?;
    let emp = employee_table(alloc, &mut draws, departments, count)?;
    Ok(GenInput {
        catalog: Text::from_slice(alloc, CATALOG)?,
        script: Text::from_slice(alloc, SCRIPT)?,
        emp,
        dept,
    })
}
