use crate::folder::{FolderShelf, ReadErr, read_whole};
use crate::program::program;
use crate::scratch::{FileRack, PAGES};
use crate::terminal::StdSink;
use std::alloc::{AllocError, Global};
use std::fs;
use std::io::{self, ErrorKind, Read, Write};
use std::rt::Files;
use std::test::Fail;
use xp_outside::{Drive, PAGE, Rack, RackErr, Shelf, ShelfErr, Sink, pour};

// Gives a byte a call, and fails at the call of a number.
#[derive(Drop)]
struct Trickle {
    left: u32,
    calls: u32,
    broken_off_at: u32,
    fails_at: u32,
}

impl Read for Trickle {
    fn read(&mut self, piece: &mut [u8]) -> io::Result<usize> {
        self.calls = self.calls.saturating_add(1);
        if self.calls == self.broken_off_at {
            return Err(io::Error::from(ErrorKind::Interrupted));
        }
        if self.calls == self.fails_at {
            return Err(io::Error::from(ErrorKind::Other));
        }
        match piece.first_mut() {
            Some(byte) if self.left > 0 => {
                self.left -= 1;
                *byte = 7;
                Ok(1)
            }
            _ => Ok(0),
        }
    }
}

// Takes a byte a call, and is broken off at its second.
#[derive(Drop)]
struct Sip {
    calls: u32,
    taken: u32,
}

impl Write for Sip {
    fn write(&mut self, piece: &[u8]) -> io::Result<usize> {
        self.calls = self.calls.saturating_add(1);
        if self.calls == 2 {
            return Err(io::Error::from(ErrorKind::Interrupted));
        }
        self.taken = self.taken.saturating_add(1);
        Ok(piece.len().min(1))
    }

    fn flush(&mut self) -> io::Result<()> {
        Ok(())
    }
}

#[test]
fn a_reader_is_read_to_its_end_whatever_it_gives_at_once(rt: HostRuntime) -> Result<(), Fail> {
    let alloc = rt.alloc();
    // how many bytes there are, at which call it is broken off and fails, the limit, and how many are read
    for (left, broken_off_at, fails_at, limit, read) in [
        (5, 0, 0, 5, Some(5)),
        (5, 3, 0, 9, Some(5)),
        (0, 1, 0, 0, Some(0)),
        (5, 0, 2, 9, None),
        (5, 0, 0, 4, None),
    ] {
        let mut reader = Trickle {
            left,
            calls: 0,
            broken_off_at,
            fails_at,
        };
        match (read_whole(alloc, &mut reader, limit), read) {
            (Ok(bytes), Some(count)) => assert_eq!(rt; bytes.len(), count),
            (Err(ReadErr::Failed), None) => assert!(rt; fails_at == 2),
            (Err(ReadErr::TooLong), None) => assert!(rt; limit == 4),
            _ => assert!(rt; false),
        }
    }
    Ok(())
}

#[test]
fn a_shelf_gives_files_within_their_limit(rt: HostRuntime) -> Result<(), Fail> {
    let alloc = rt.alloc();
    let mut shelf = FolderShelf::new(&rt);
    let name = "folder_shelf_test.txt";
    for size in [0usize, 65_536, 65_537, 200_000] {
        let mut bytes = Vec::with_capacity(alloc, size)?;
        for place in 0..size {
            bytes.push((place % 251) as u8)?;
        }
        fs::write(&rt, name, bytes.as_slice())?;
        let found = shelf.fetch(alloc, name.as_bytes(), size as u64);
        assert!(rt; matches!(&found, Ok(found) if found.as_slice() == bytes.as_slice()));
        if size > 0 {
            let long = shelf.fetch(alloc, name.as_bytes(), size as u64 - 1);
            assert!(rt; matches!(long, Err(ShelfErr::TooLong)));
        }
    }
    fs::remove_file(&rt, name)?;
    assert!(rt;
        matches!(
            shelf.fetch(alloc, name.as_bytes(), 9),
            Err(ShelfErr::Missing)
        )
    );
    assert!(rt; matches!(shelf.fetch(alloc, b".", 9), Err(ShelfErr::Failed)));
    Ok(())
}

#[test]
fn a_writer_gets_all_or_its_failure_is_told(rt: HostRuntime) -> Result<(), Fail> {
    let alloc = rt.alloc();
    let mut slow = StdSink::new(Some(Sip { calls: 0, taken: 0 }));
    assert!(rt; pour(&mut slow, b"abc").is_ok());
    let mut sink = StdSink::new(Some(Vec::new(alloc)));
    assert_eq!(rt; sink.write(b"abc").ok(), Some(3));
    let mut none = [0u8; 0];
    let mut full = StdSink::new(Some(none.as_mut_slice()));
    assert!(rt; full.write(b"abc").is_err());
    let mut closed: StdSink<Vec<u8>> = StdSink::new(None);
    assert!(rt; closed.write(b"abc").is_err());
    Ok(())
}

// Drives that threads may share: the compiler refuses any others.
fn are_shared<D: Drive + Send + Sync>(_drives: &[D]) -> bool {
    true
}

#[test]
fn a_drive_gives_back_each_of_its_pages(rt: HostRuntime) -> Result<(), Fail> {
    let mut rack = FileRack::new(&rt);
    let Ok(mut drives) = rack.mount(rt.alloc(), 1) else {
        return Err(Fail::from(AllocError));
    };
    fs::remove_file(&rt, "drive0.xprs")?;
    assert!(rt; are_shared(drives.as_slice()));
    let drive = &mut drives[0];
    assert_eq!(rt; drive.capacity(), PAGES);
    let mut page = [7u8; PAGE];
    assert!(rt; drive.read(PAGES - 1, &mut page).is_ok());
    assert!(rt; page.iter().all(|byte| *byte == 0));
    for number in 0..PAGES {
        page[0] = (number % 256) as u8;
        page[PAGE - 1] = (number / 256) as u8;
        assert!(rt; drive.write(number, &page).is_ok());
    }
    for number in 0..PAGES {
        assert!(rt; drive.read(number, &mut page).is_ok());
        assert_eq!(rt; page[0] as u32 + page[PAGE - 1] as u32 * 256, number);
    }
    Ok(())
}

#[test]
fn scratch_files_are_the_runs_own(rt: HostRuntime) -> Result<(), Fail> {
    let alloc = rt.alloc();
    let name = "drive0.xprs";
    fs::write(&rt, name, b"a table of the user")?;
    let mut rack = FileRack::new(&rt);
    assert!(rt; matches!(rack.mount(alloc, 1), Err(RackErr::Failed)));
    assert_eq!(rt;
        fs::read_to_string(&rt, name)?.as_str(),
        "a table of the user"
    );
    fs::rename(&rt, name, "scratch_test.csv")?;
    rt.symlink("scratch_test.csv", name)?;
    let mut first = rack.mount(alloc, 1);
    let mut second = rack.mount(alloc, 1);
    if let (Ok(first), Ok(second)) = (&mut first, &mut second) {
        let mut page = [7u8; PAGE];
        assert!(rt; first[0].write(0, &page).is_ok());
        assert!(rt; second[0].read(0, &mut page).is_ok());
        assert!(rt; page.iter().all(|byte| *byte == 0));
    }
    assert!(rt; first.is_ok() && second.is_ok());
    assert_eq!(rt;
        fs::read_to_string(&rt, "scratch_test.csv")?.as_str(),
        "a table of the user"
    );
    fs::remove_file(&rt, name)?;
    fs::remove_file(&rt, "scratch_test.csv")?;
    Ok(())
}

// The words of a run, by blanks between them.
fn words(alloc: Global, line: &str) -> Result<Vec<String>, AllocError> {
    let mut words = Vec::new(alloc);
    for word in line.split(' ') {
        words.push(String::from_str(alloc, word)?)?;
    }
    Ok(words)
}

#[test]
fn the_program_ends_with_the_number_of_its_status(rt: HostRuntime) -> Result<(), Fail> {
    let alloc = rt.alloc();
    fs::write(
        &rt,
        "cat_test",
        "relation T from \"t_test.csv\" (n = int4)\n",
    )?;
    fs::write(&rt, "t_test.csv", "n\n1\n")?;
    fs::write(&rt, "q_test", "retrieve (T.n) \\g\n")?;
    fs::write(&rt, "fault_test", "retrieve (T.m) \\g\n")?;
    for (line, number) in [
        ("alone cat_test q_test", 0),
        ("alone cat_test", 1),
        ("alone cat_test fault_test", 2),
        ("check cat_test missing_test", 2),
        ("check . q_test", 3),
        ("run cat_test q_test --drives 2", 9),
        ("run cat_test", 1),
    ] {
        let out = Some(Vec::new(alloc));
        let err = Some(Vec::new(alloc));
        assert_eq!(rt;
            program(&rt, Ok(words(alloc, line)?), out, err),
            number,
            "{line}"
        );
    }
    let none: Option<Vec<u8>> = None;
    let err = Some(Vec::new(alloc));
    assert_eq!(rt;
        program(&rt, Ok(words(alloc, "alone cat_test q_test")?), none, err),
        6
    );
    for name in ["cat_test", "t_test.csv", "q_test", "fault_test"] {
        fs::remove_file(&rt, name)?;
    }
    for name in ["drive0.xprs", "drive1.xprs", "drive2.xprs", "drive3.xprs"] {
        fs::remove_file(&rt, name)?;
    }
    Ok(())
}
