ghost use Rattle.std.specs.Prelude.{◌<◌};

use crate::{Outcome, answer_alone};
use lists::Sequence;
use std::alloc::{AllocError, Global};
use std::test::Fail;
use xp_outside::{
    Drive, FileList, MemDrive, MemRack, MemShelf, MemSink, NamedFile, NumberList, Rack, WildRack,
};

// The files: a name, and the bytes with `|` for a line feed and `^` for a carriage return.
const FILES: [(&str, &str); 8] = [
    (
        "cat",
        "relation EMP from \"emp.csv\" (name = text, dept = text, sal = int4)|relation DEPT from \"dept.csv\" (dname = text, floor = int4)|relation E from \"e.csv\" (a = int4)|relation ITEM from \"item.csv\" (id = int4, title = text, price = int4, sold = bool) index id|relation P from \"p.csv\" (n = text, a = int4 null, b = int4 null)|",
    ),
    ("q", "retrieve (EMP.name) where EMP.sal > 1000 \\g|"),
    (
        "emp.csv",
        "name,dept,sal|Ann,toy,1200|Bob,toy,900|Cid,shoe,1500|",
    ),
    ("dept.csv", "dname,floor|toy,2|shoe,1|candy,2|"),
    ("e.csv", "a|1|"),
    (
        "item.csv",
        "id,title,price,sold|10,\"Lamp, small\",2500,t|11,Chair,4000,false|12,Desk,12000,f|7,\"12\"\" ruler\",150,true|",
    ),
    ("p.csv", "n,a,b|x,1,2|y,,2|z,3,|"),
    ("nulls.csv", "n,a,b|x,1,2|y,,2|z,3,|,,|"),
];

// Each line is a verb, a script, and the number of the status and the bytes written, with `|` for a line feed.
const SCRIPTS: &str = "alone retrieve (EMP.name) where EMP.sal > 1000 \\g -> 0 name|Ann|Cid|
alone retrieve (EMP.dept) \\g -> 0 dept|shoe|toy|toy|
alone retrieve unique (EMP.dept) \\g -> 0 dept|shoe|toy|
alone retrieve (e.name, d.floor, x = f.name) from e in EMP, d in DEPT, f in EMP where e.dept = d.dname and f.sal = 900 \\g -> 0 name,floor,x|Ann,2,Bob|Bob,2,Bob|Cid,1,Bob|
alone retrieve (x = E.a * E.a * E.a) \\g -> 2 xprs: q:1:25: TooWide 9903520314283042199192993792|
alone retrieve (x = E.a * E.a) \\g -> 0 x|1|
alone retrieve (EMP.name) where EMP.name = \"ab -> 2 xprs: q:1:38: UnclosedText|
alone retrieve (EMP.name)| -> 2 xprs: q:2:1: Unexpected|
alone  -> 0 
alone retrieve (ITEM.title, gross = ITEM.price * 119) where ITEM.id >= 8 and not ITEM.sold sort by gross using > \\g retrieve (i.all) from i in ITEM where i.sold \\g -> 0 title,gross|Desk,1428000|Chair,476000||id,title,price,sold|7,\"12\"\" ruler\",150,t|10,\"Lamp, small\",2500,t|
check retrieve(x=(1+2)*3,EMP.all)where not(true or false)\\g -> 0 retrieve (x = (1 + 2) * 3, EMP.all) where not (true or false) \\g|
alone machine 2 after 1 \\g retrieve (x = 1) \\g -> 0 x|1|
alone retrieve (P.n) where P.a < P.b or P.a = 3 \\g -> 0 n|x|z|
alone retrieve (P.a, P.n) \\g -> 0 a,n|,y|1,x|3,z|
alone retrieve (P.n, s = P.a + P.b) where P.b is not null \\g -> 0 n,s|x,3|y,|
alone retrieve (p.n, m = q.n) from p in P, q in P where p.a = q.a \\g -> 0 n,m|x,x|z,z|
check machine 65 after 1 \\g -> 2 xprs: q:1:9: BadDegree|
check machine 2 after 3, 4 after 3 \\g -> 2 xprs: q:1:28: BadStep|
check machine 2 after 01,8 after 3\\g -> 0 machine 2 after 1, 8 after 3 \\g|
check retrieve into EMP (x = 1) \\g -> 2 xprs: q:1:15: DoubleRelation|
check retrieve into T (n = count(EMP.name)) \\g -> 2 xprs: q:1:10: FoldInto|
check retrieve (T.x) \\g retrieve into T (x = 1) \\g -> 2 xprs: q:1:11: NoRange|
alone retrieve into T (x = 1) \\g -> 0 
alone retrieve into RICH (EMP.name, EMP.dept, big = EMP.sal * 10) where EMP.sal > 1000 \\g retrieve (RICH.name, DEPT.floor) where RICH.dept = DEPT.dname and RICH.big > 13000 \\g -> 0 name,floor|Cid,1|
alone retrieve (x = 1) \\g retrieve into T (y = 2) \\g retrieve (T.all) \\g -> 0 x|1||y|2|
alone retrieve (EMP.dept, n = count(EMP.name), s = sum(EMP.sal), lo = min(EMP.sal)) \\g -> 0 dept,n,s,lo|shoe,1,1500,1500|toy,2,2100,900|
alone retrieve (s = sum(P.a), P.b, most = max(P.a)) sort by s using > \\g -> 0 s,b,most|3,,3|1,2,1|
alone retrieve (n = count(EMP.name), s = sum(EMP.sal)) where EMP.sal > 9000 \\g -> 0 n,s|0,|";

// Each line is a file and its other bytes, a script, and what is answered.
const OTHERS: &str =
    "emp.csv  @ retrieve (EMP.name) \\g -> 2 xprs: emp.csv: record 1 column 0: NoHeader|
emp.csv name,dpt,sal| @ retrieve (EMP.name) \\g -> 2 xprs: emp.csv: record 1 column 2: BadHeader|
emp.csv name,dept| @ retrieve (EMP.name) \\g -> 2 xprs: emp.csv: record 1 column 3: BadHeader|
emp.csv name,dept,sal|Ann,toy,1200|Bob,toy,2147483648| @ retrieve (EMP.name) \\g -> 2 xprs: emp.csv: record 3 column 3: OutOfInt4|
emp.csv name,dept,sal|Ann,toy,-2147483648| @ retrieve (EMP.sal) \\g -> 0 sal|-2147483648|
emp.csv name,dept,sal| @ retrieve (EMP.name) \\g -> 0 name|
emp.csv name,dept,sal|Ann,toy,1200|Bob,toy,900|Cid,shoe,1500|Abe,toy,900| @ retrieve (EMP.name, EMP.sal) sort by sal using > \\g -> 0 name,sal|Cid,1500|Ann,1200|Abe,900|Bob,900|
emp.csv name,dept,sal|Ann| @ retrieve (n = count(EMP.name)) \\g -> 2 xprs: emp.csv: record 2 column 0: FieldCount|
item.csv id,title,price,sold^|10,\"Lamp, small\",2500,t^|11,Chair,4000,false^|12,Desk,12000,f^|7,\"12\"\" ruler\",150,true^| @ retrieve (ITEM.title, gross = ITEM.price * 119) where ITEM.id >= 8 and not ITEM.sold sort by gross using > \\g retrieve (i.all) from i in ITEM where i.sold \\g -> 0 title,gross|Desk,1428000|Chair,476000||id,title,price,sold|7,\"12\"\" ruler\",150,t|10,\"Lamp, small\",2500,t|
e.csv a|-2147483648| @ retrieve (s = sum(E.a * E.a)) \\g -> 0 s|4611686018427387904|
e.csv a|-2147483648|-2147483648| @ retrieve (n = count(E.a)) \\g retrieve (s = sum(E.a * E.a)) \\g -> 10 xprs: statement 2 too large|
cat relation A from \"a\" (x = int4, x = bool) @ retrieve (x = ) \\g -> 2 xprs: cat:1:32: DoubleColumn|
cat relation P from \"nulls.csv\" (n = text null, a = int4 null, b = int4 null) @ retrieve unique (P.b) where P.n is null or P.b is null \\g -> 0 b|\"\"|
cat relation Z from \"z.csv\" (n = text) @ retrieve (x = 1) \\g -> 2 xprs: z.csv: missing|";

// Each line is what stands behind the operands of `explain`, a script, and what is answered.
const PLANS: &str =
    " @ retrieve (e.name, d.floor) from e in EMP, d in DEPT where e.dept = d.dname \\g -> 0 statement 1 cost 34|plan (e:heap * d:heap)|fragment 0 positions 1 pages 1 time 11 io solo 2|fragment 1 positions 1 pages 1 time 14 io solo 3|
--join hash @ retrieve (e.name, d.floor, x = f.name) from e in EMP, d in DEPT, f in EMP where e.dept = d.dname and f.sal = 900 \\g -> 0 statement 1 cost 53|plan (e:heap * (f:heap * d:heap))|fragment 0 positions 1 pages 1 time 11 io solo 2|fragment 1 positions 1 pages 1 time 11 io solo 2|fragment 2 positions 1 pages 1 time 17 cpu solo 4|
--join merge @ retrieve (e.name, d.floor) from e in EMP, d in DEPT where e.dept = d.dname \\g -> 0 statement 1 cost 43|plan (e:heap ~ d:heap)|fragment 0 positions 1 pages 1 time 11 io solo 2|fragment 1 positions 1 pages 1 time 11 io solo 2|fragment 2 positions 64 pages 0 time 6 cpu solo 4|
 @ retrieve (x = 1) \\g retrieve (ITEM.title) where ITEM.id = 7 \\g -> 0 statement 1 cost 1|plan one|fragment 0 positions 1 pages 0 time 1 cpu solo 4|statement 2 cost 12|plan ITEM:heap|fragment 1 positions 1 pages 1 time 12 io solo 3|
 @ retrieve (n = count(EMP.name)) \\g -> 0 statement 1 cost 11|plan EMP:heap|fragment 0 positions 1 pages 1 time 11 io solo 2|
 @ retrieve into RICH (EMP.name, EMP.dept) where EMP.sal > 1000 \\g retrieve (RICH.name, DEPT.floor) where RICH.dept = DEPT.dname \\g -> 0 statement 1 cost 11|plan EMP:heap|fragment 0 positions 1 pages 1 time 11 io solo 2|statement 2 cost 18|plan (RICH:heap * DEPT:heap)|fragment 1 positions 1 pages 0 time 1 cpu solo 4|fragment 2 positions 1 pages 1 time 14 io solo 3|
--join hash @ retrieve (x = a.sal) from a in EMP, b in EMP, c in EMP, d in EMP, e in EMP, f in EMP where a.sal = b.sal and b.sal = c.sal and c.sal = d.sal and d.sal = e.sal and e.sal = f.sal \\g -> 0 statement 1 cost 126|plan (a:heap * (b:heap * (c:heap * (d:heap * (e:heap * f:heap)))))|fragment 0 positions 1 pages 1 time 11 io solo 2|fragment 1 positions 1 pages 1 time 11 io solo 2|fragment 2 positions 1 pages 1 time 11 io solo 2|fragment 3 positions 1 pages 1 time 11 io solo 2|fragment 4 positions 1 pages 1 time 11 io solo 2|fragment 5 positions 1 pages 1 time 26 cpu solo 4|
--join merge @ retrieve (x = a.sal) from a in EMP, b in EMP, c in EMP, d in EMP, e in EMP, f in EMP where a.sal = b.sal and b.sal = c.sal and c.sal = d.sal and d.sal = e.sal and e.sal = f.sal \\g -> 0 statement 1 cost 171|plan (a:heap ~ (b:heap ~ (c:heap ~ (d:heap ~ (e:heap ~ f:heap)))))|fragment 0 positions 1 pages 1 time 11 io solo 2|fragment 1 positions 1 pages 1 time 11 io solo 2|fragment 2 positions 1 pages 1 time 11 io solo 2|fragment 3 positions 1 pages 1 time 11 io solo 2|fragment 4 positions 1 pages 1 time 11 io solo 2|fragment 5 positions 1 pages 1 time 11 io solo 2|fragment 6 positions 64 pages 0 time 6 cpu solo 4|fragment 7 positions 64 pages 0 time 6 cpu solo 4|fragment 8 positions 64 pages 0 time 6 cpu solo 4|fragment 9 positions 64 pages 0 time 6 cpu solo 4|fragment 10 positions 64 pages 0 time 6 cpu solo 4|
--backends 2 @ machine 2 after 1 \\g retrieve (x = 1) \\g -> 0 statement 1 cost 1|plan one|fragment 0 positions 1 pages 0 time 1 cpu solo 2|
 @ retrieve (EMP.name)| -> 2 xprs: q:2:1: Unexpected|";

// Each line is the words of a run, and what is answered.
const WORDS: &str = " -> 1 xprs: usage|
alone cat -> 1 xprs: usage|
check cat q --trace -> 1 xprs: usage|
explain cat q --join sort -> 1 xprs: usage|
run cat q -> 1 xprs: usage|
gen 1 2 -> 9 xprs: gen is not built yet|
alone cat nothing --trace -> 9 xprs: --trace is not built yet|
alone nothing q -> 2 xprs: nothing: missing|
alone cat q --join merge --backends 64 --frames=1 --batch 3 -> 0 name|Ann|Cid|
alone --drives 16 cat q -> 0 name|Ann|Cid|";

// The calls that fail of the shelf, the output, the rack and drive 0, how many bytes the output takes at once, and how
// many pages a drive has.
#[derive(Clone, Copy)]
struct Devices<'a> {
    shelf_fails: &'a [u64],
    out_fails: &'a [u64],
    mount_fails: &'a [u64],
    read_fails: &'a [u64],
    write_fails: &'a [u64],
    most: u32,
    pages: u32,
}

const SOUND: Devices<'static> = Devices {
    shelf_fails: &[],
    out_fails: &[],
    mount_fails: &[],
    read_fails: &[],
    write_fails: &[],
    most: 4096,
    pages: 8,
};

// The bytes of a text with a line feed for each `|` and a carriage return for each `^`.
fn lines(alloc: Global, text: &str) -> Result<Vec<u8>, AllocError> {
    let mut bytes = Vec::new(alloc);
    for byte in text.bytes() {
        bytes.push(match byte {
            b'|' => b'\n',
            b'^' => b'\r',
            other => other,
        })?;
    }
    Ok(bytes)
}

fn numbers(alloc: Global, numbers: &[u64]) -> Result<NumberList, AllocError> {
    Ok(Sequence::from_vec(Vec::from_slice(alloc, numbers)?))
}

// The files, with other bytes for some of them.
fn files(alloc: Global, others: &[(&str, &str)]) -> Result<FileList, AllocError> {
    let mut files = Vec::new(alloc);
    for (name, text) in others.iter().chain(FILES.iter()) {
        files.push(NamedFile {
            name: Vec::from_slice(alloc, name.as_bytes())?,
            bytes: lines(alloc, text)?,
        })?;
    }
    Ok(Sequence::from_vec(files))
}

// A run that has ended, and what it wrote.
#[derive(Drop)]
struct Ended<D> {
    status: u8,
    drives: Vec<D>,
    out: MemSink,
    err: MemSink,
}

fn call<K: Rack>(
    alloc: Global,
    words: &[String],
    shelf: &mut MemShelf,
    rack: &mut K,
    out: MemSink,
    err: MemSink,
) -> Ended<K::Drive> {
    let mut out = out;
    let mut err = err;
    let outcome = answer_alone(alloc, words, shelf, rack, &mut out, &mut err);
    let Outcome { status, drives } = outcome;
    Ended {
        status: status.number(),
        drives,
        out,
        err,
    }
}

fn words_of(alloc: Global, words: &[&str]) -> Result<Vec<String>, AllocError> {
    let mut given = Vec::new(alloc);
    for word in words {
        given.push(String::from_str(alloc, word)?)?;
    }
    Ok(given)
}

// The number of a status, a space, and what was written to the output and then of the fault.
fn left(alloc: Global, status: u8, out: &MemSink, err: &MemSink) -> Result<Vec<u8>, AllocError> {
    let mut left = Vec::new(alloc);
    if status >= 10 {
        left.push(b'1')?;
    }
    left.push(b'0' + status % 10)?;
    left.push(b' ')?;
    left.extend_from_slice(out.bytes())?;
    left.extend_from_slice(err.bytes())?;
    Ok(left)
}

// A run over drives in memory.
fn run(
    alloc: Global,
    words: &[&str],
    files: FileList,
    devices: Devices<'_>,
) -> Result<Ended<MemDrive>, AllocError> {
    let given = words_of(alloc, words)?;
    let mut shelf = MemShelf::new(files, numbers(alloc, devices.shelf_fails)?);
    let mount_fails = numbers(alloc, devices.mount_fails)?;
    let read_fails = numbers(alloc, devices.read_fails)?;
    let write_fails = numbers(alloc, devices.write_fails)?;
    let mut rack = MemRack::new(devices.pages, mount_fails, read_fails, write_fails);
    let out = MemSink::new(alloc, devices.most, numbers(alloc, devices.out_fails)?);
    let err = MemSink::new(alloc, 4096, Sequence::new(alloc));
    Ok(call(alloc, given.as_slice(), &mut shelf, &mut rack, out, err))
}

fn answer(
    alloc: Global,
    words: &[&str],
    files: FileList,
    devices: Devices<'_>,
) -> Result<Vec<u8>, AllocError> {
    let ended = run(alloc, words, files, devices)?;
    left(alloc, ended.status, &ended.out, &ended.err)
}

// The same over drives whose reads change one byte of every page.
fn wild_answer(
    alloc: Global,
    verb: &str,
    files: FileList,
    byte: u32,
    mask: u8,
) -> Result<Vec<u8>, AllocError>
    requires { byte < 8192 }
{
    let given = words_of(alloc, &[verb, "cat", "q"])?;
    let mut shelf = MemShelf::new(files, Sequence::new(alloc));
    let mut rack = WildRack::new(8, byte, mask);
    let out = MemSink::new(alloc, 4096, Sequence::new(alloc));
    let err = MemSink::new(alloc, 4096, Sequence::new(alloc));
    let ended = call(alloc, given.as_slice(), &mut shelf, &mut rack, out, err);
    left(alloc, ended.status, &ended.out, &ended.err)
}

#[test]
fn each_script_is_answered_or_refused_at_its_place(rt: HostRuntime) -> Result<(), Fail> {
    let alloc = rt.alloc();
    for line in SCRIPTS.lines() {
        let (case, wanted) = line.split_once(" -> ").unwrap_or(("", ""));
        let (verb, script) = case.split_once(" ").unwrap_or(("", ""));
        let left = answer(
            alloc,
            &[verb, "cat", "q"],
            files(alloc, &[("q", script)])?,
            SOUND,
        )?;
        assert_eq!(rt; left.as_slice(), lines(alloc, wanted)?.as_slice());
    }
    for line in OTHERS.lines() {
        let (case, wanted) = line.split_once(" -> ").unwrap_or(("", ""));
        let (other, script) = case.split_once(" @ ").unwrap_or(("", ""));
        let (name, bytes) = other.split_once(" ").unwrap_or(("", ""));
        let left = answer(
            alloc,
            &["alone", "cat", "q"],
            files(alloc, &[("q", script), (name, bytes)])?,
            SOUND,
        )?;
        assert_eq!(rt; left.as_slice(), lines(alloc, wanted)?.as_slice());
    }
    Ok(())
}

#[test]
fn words_and_devices_have_their_statuses(rt: HostRuntime) -> Result<(), Fail> {
    let alloc = rt.alloc();
    for line in WORDS.lines() {
        let (words, wanted) = line.split_once(" -> ").unwrap_or(("", ""));
        let words = words.split_whitespace().collect::<Vec<&str>>(alloc)?;
        let left = answer(alloc, words.as_slice(), files(alloc, &[])?, SOUND)?;
        assert_eq!(rt; left.as_slice(), lines(alloc, wanted)?.as_slice());
    }
    let devices: [(Devices<'_>, &str); 12] = [
        (
            Devices {
                shelf_fails: &[1],
                ..SOUND
            },
            "3 xprs: shelf failed|",
        ),
        (
            Devices {
                shelf_fails: &[8],
                ..SOUND
            },
            "0 name|Ann|Cid|",
        ),
        (Devices { most: 1, ..SOUND }, "0 name|Ann|Cid|"),
        (
            Devices {
                most: 11,
                out_fails: &[2],
                ..SOUND
            },
            "6 name|Ann|Cixprs: output failed|",
        ),
        (
            Devices {
                mount_fails: &[1],
                ..SOUND
            },
            "4 xprs: rack failed|",
        ),
        (
            Devices {
                mount_fails: &[2],
                ..SOUND
            },
            "0 name|Ann|Cid|",
        ),
        (
            Devices {
                write_fails: &[1],
                ..SOUND
            },
            "4 xprs: drive 0 failed|",
        ),
        (
            Devices {
                write_fails: &[7],
                ..SOUND
            },
            "0 name|Ann|Cid|",
        ),
        (
            Devices {
                read_fails: &[5],
                ..SOUND
            },
            "4 xprs: drive 0 failed|",
        ),
        (
            Devices {
                read_fails: &[6],
                ..SOUND
            },
            "0 name|Ann|Cid|",
        ),
        (
            Devices { pages: 5, ..SOUND },
            "8 xprs: drive 0 needs 6 pages and has 5|",
        ),
        (Devices { pages: 6, ..SOUND }, "0 name|Ann|Cid|"),
    ];
    for (devices, wanted) in devices {
        let left = answer(alloc, &["alone", "cat", "q"], files(alloc, &[])?, devices)?;
        assert_eq!(rt; left.as_slice(), lines(alloc, wanted)?.as_slice());
    }
    Ok(())
}

// Two tables alone, of three rows each.
const TWO: &str =
    "relation EMP from \"emp.csv\" (name = text, dept = text, sal = int4)|relation DEPT from \"dept.csv\" (dname = text, floor = int4)|";

#[test]
fn drives_are_handed_back_with_their_counts_and_their_pages(rt: HostRuntime) -> Result<(), Fail> {
    let alloc = rt.alloc();
    let all: [u64; 8] = [1, 2, 3, 4, 5, 6, 7, 8];
    let failing = Devices {
        read_fails: &all,
        ..SOUND
    };
    let small = Devices { pages: 1, ..SOUND };
    let cases: [(Devices<'_>, &str, u64); 3] = [
        (failing, "4 xprs: drive 0 failed|", 1),
        (small, "8 xprs: drive 0 needs 2 pages and has 1|", 0),
        (Devices { pages: 2, ..SOUND }, "0 name|Ann|Cid|", 0),
    ];
    for (devices, wanted, faults) in cases {
        let files = files(alloc, &[("cat", TWO)])?;
        let ended = run(
            alloc,
            &["alone", "cat", "q", "--drives", "3"],
            files,
            devices,
        )?;
        let left = left(alloc, ended.status, &ended.out, &ended.err)?;
        assert_eq!(rt; left.as_slice(), lines(alloc, wanted)?.as_slice());
        assert_eq!(rt; ended.drives.len(), 3);
        assert_eq!(rt; ended.drives[0].faults(), faults);
    }
    let none = "relation EMP from \"none.csv\" (name = text, dept = text, sal = int4)|";
    let header = "name,dept,sal|";
    let files = files(alloc, &[("cat", none), ("none.csv", header)])?;
    let ended = run(
        alloc,
        &["alone", "cat", "q"],
        files,
        Devices { pages: 0, ..SOUND },
    )?;
    let left = left(alloc, ended.status, &ended.out, &ended.err)?;
    assert_eq!(rt; left.as_slice(), lines(alloc, "0 name|")?.as_slice());
    Ok(())
}

#[test]
fn an_index_stands_behind_the_heap_file_of_its_table(rt: HostRuntime) -> Result<(), Fail> {
    let alloc = rt.alloc();
    let item =
        "relation ITEM from \"item.csv\" (id = int4, title = text, price = int4, sold = bool) index id|";
    let files = files(alloc, &[("cat", item), ("q", "retrieve (x = 1) \\g")])?;
    let ended = run(alloc, &["alone", "cat", "q"], files, SOUND)?;
    assert_eq!(rt; ended.status, 0);
    assert_eq!(rt; ended.drives.len(), 4);
    let drive = &ended.drives[0];
    assert!(rt; drive.capacity() > 1);
    // a leaf of file 1 with four entries: key, heap page and slot
    let leaf = b"XPIX\x00\x01\x00\x04\x00\x00\x00\x01\x00\x00\x00\x00\x00\x00\x00\x00\
        \x00\x00\x00\x07\x00\x00\x00\x00\x00\x03\
        \x00\x00\x00\x0a\x00\x00\x00\x00\x00\x00\
        \x00\x00\x00\x0b\x00\x00\x00\x00\x00\x01\
        \x00\x00\x00\x0c\x00\x00\x00\x00\x00\x02";
    assert_eq!(rt; &drive.page(1)[..60], leaf.as_slice());
    Ok(())
}

#[test]
fn a_page_that_breaks_a_rule_is_bad(rt: HostRuntime) -> Result<(), Fail> {
    let alloc = rt.alloc();
    let rules: [(u32, u8, &str); 10] = [
        (0, 1, "1"),
        (5, 1, "2"),
        (18, 1, "3"),
        (11, 1, "4"),
        (15, 1, "5"),
        (16, 128, "6"),
        (17, 1, "7"),
        (7, 1, "7"),
        (32, 1, "8"),
        (8179, 1, "9"),
    ];
    for (byte, mask, rule) in rules {
        let mut wanted = lines(alloc, "5 xprs: bad page: file 0 page 0 rule ")?;
        wanted.extend_from_slice(rule.as_bytes())?;
        wanted.push(b'\n')?;
        let left = wild_answer(alloc, "alone", files(alloc, &[("cat", TWO)])?, byte, mask)?;
        assert_eq!(rt; left.as_slice(), wanted.as_slice());
    }
    let left = wild_answer(alloc, "alone", files(alloc, &[("cat", TWO)])?, 8191, 1)?;
    assert_eq!(rt;
        left.as_slice(),
        lines(alloc, "0 name|Ann|Cid|")?.as_slice()
    );
    Ok(())
}

// A table of five texts in one row, the first and the last of these lengths.
fn wide(alloc: Global, first: usize, last: usize) -> Result<Vec<u8>, AllocError> {
    let mut bytes = lines(alloc, "a,b,c,d,e|")?;
    for (len, end) in [
        (first, b','),
        (2000, b','),
        (2000, b','),
        (2000, b','),
        (last, b'\n'),
    ] {
        for _ in 0..len {
            bytes.push(b'x')?;
        }
        bytes.push(end)?;
    }
    Ok(bytes)
}

#[test]
fn a_row_may_fill_a_page_and_no_more(rt: HostRuntime) -> Result<(), Fail> {
    let alloc = rt.alloc();
    let cases: [(usize, usize, &str); 3] = [
        (2000, 158, "0 x|1|"),
        (2000, 159, "2 xprs: w: record 2 column 0: RowTooLong|"),
        (2001, 1, "2 xprs: w: record 2 column 1: TextTooLong|"),
    ];
    for (first, last, wanted) in cases {
        let catalog = "relation W from \"w\" (a = text, b = text, c = text, d = text, e = text)";
        let mut files = files(alloc, &[("cat", catalog), ("q", "retrieve (x = 1) \\g")])?;
        let table = NamedFile {
            name: Vec::from_slice(alloc, b"w")?,
            bytes: wide(alloc, first, last)?,
        };
        files.push(table)?;
        let left = answer(alloc, &["alone", "cat", "q"], files, SOUND)?;
        assert_eq!(rt; left.as_slice(), lines(alloc, wanted)?.as_slice());
    }
    Ok(())
}

#[test]
fn each_plan_is_explained(rt: HostRuntime) -> Result<(), Fail> {
    let alloc = rt.alloc();
    for line in PLANS.lines() {
        let (case, wanted) = line.split_once(" -> ").unwrap_or(("", ""));
        let (options, script) = case.split_once(" @ ").unwrap_or(("", ""));
        let (option, value) = options.split_once(" ").unwrap_or(("", ""));
        let words = ["explain", "cat", "q", option, value];
        let count = if options.is_empty() { 3 } else { 5 };
        let files = files(alloc, &[("q", script)])?;
        let left = answer(alloc, &words[..count], files, SOUND)?;
        assert_eq!(rt; left.as_slice(), lines(alloc, wanted)?.as_slice());
    }
    Ok(())
}

// The files with a table of the numbers 1 to 1,000, which has an index, and a script.
fn numbered_files(alloc: Global, script: &str) -> Result<FileList, AllocError> {
    let catalog = "relation NUM from \"num.csv\" (n = int4) index n|";
    let mut bytes = Vec::from_slice(alloc, b"n\n")?;
    for number in 1..1001u32 {
        bytes.extend_from_slice(format!(in alloc; "{number}\n")?.as_bytes())?;
    }
    let mut files = files(alloc, &[("cat", catalog), ("q", script)])?;
    let table = NamedFile {
        name: Vec::from_slice(alloc, b"num.csv")?,
        bytes,
    };
    match files.push(table) {
        Ok(()) => Ok(files),
        Err(_) => Err(AllocError),
    }
}

#[test]
fn an_index_is_searched_where_a_statement_bounds_its_column(rt: HostRuntime) -> Result<(), Fail> {
    let alloc = rt.alloc();
    let few = "retrieve (NUM.n) where NUM.n > 995 \\g";
    let first = "retrieve (NUM.n) where NUM.n < 10 \\g";
    let failing = Devices {
        read_fails: &[1],
        ..SOUND
    };
    let cases: [(&str, Devices<'_>, &str); 5] = [
        (
            few,
            SOUND,
            "0 statement 1 cost 61|plan NUM:index|fragment 0 positions 5 pages 7 time 61 io solo 2|",
        ),
        (
            first,
            SOUND,
            "0 statement 1 cost 97|plan NUM:index|fragment 0 positions 9 pages 11 time 97 io solo 2|",
        ),
        (first, failing, "4 xprs: drive 0 failed|"),
        (
            "retrieve (NUM.n) where NUM.n > 2 \\g",
            SOUND,
            "0 statement 1 cost 1008|plan NUM:heap|fragment 0 positions 1 pages 1 time 1008 cpu solo 4|",
        ),
        (
            "retrieve (NUM.n) \\g",
            failing,
            "0 statement 1 cost 1008|plan NUM:heap|fragment 0 positions 1 pages 1 time 1008 cpu solo 4|",
        ),
    ];
    for (script, devices, wanted) in cases {
        let files = numbered_files(alloc, script)?;
        let left = answer(alloc, &["explain", "cat", "q"], files, devices)?;
        assert_eq!(rt; left.as_slice(), lines(alloc, wanted)?.as_slice());
    }
    Ok(())
}

#[test]
fn an_index_page_that_breaks_a_rule_is_bad(rt: HostRuntime) -> Result<(), Fail> {
    let alloc = rt.alloc();
    // the root, of which the search uses the second item: its page number begins at byte 36
    let rules: [(u32, u8, &str); 9] = [
        (0, 1, "1"),
        (5, 1, "2"),
        (18, 1, "3"),
        (11, 1, "4"),
        (15, 1, "5"),
        (17, 2, "6"),
        (6, 128, "7"),
        (8191, 1, "8"),
        (36, 1, "9"),
    ];
    for (byte, mask, rule) in rules {
        let mut wanted = lines(alloc, "5 xprs: bad page: file 1 page 2 rule ")?;
        wanted.extend_from_slice(rule.as_bytes())?;
        wanted.push(b'\n')?;
        let files = numbered_files(alloc, "retrieve (NUM.n) where NUM.n > 995 \\g")?;
        let left = wild_answer(alloc, "explain", files, byte, mask)?;
        assert_eq!(rt; left.as_slice(), wanted.as_slice());
    }
    Ok(())
}
