use crate::{
    Drive, Gate, MemDrive, MemRack, MemShelf, MemSink, NamedFile, NoGate, PAGE, Rack, RackErr,
    Shelf, ShelfErr, WildRack, pour,
};
use lists::Sequence;
use std::test::Fail;

#[test]
fn files_and_texts_in_memory_answer_as_they_are_told(rt: HostRuntime) -> Result<(), Fail> {
    let alloc = rt.alloc();
    let file = NamedFile {
        name: Vec::from_slice(alloc, b"a")?,
        bytes: Vec::from_slice(alloc, b"text")?,
    };
    let files = Sequence::from_vec(vec![in alloc; file]?);
    let fails = Sequence::from_vec(vec![in alloc; 3u64]?);
    let mut shelf = MemShelf::new(files, fails);
    let found = shelf.fetch(alloc, b"a", 4);
    assert!(rt; matches!(&found, Ok(bytes) if bytes.as_slice() == b"text".as_slice()));
    assert!(rt; matches!(shelf.fetch(alloc, b"a", 3), Err(ShelfErr::TooLong)));
    assert!(rt; matches!(shelf.fetch(alloc, b"a", 4), Err(ShelfErr::Failed)));
    assert!(rt; matches!(shelf.fetch(alloc, b"b", 4), Err(ShelfErr::Missing)));
    let mut sink = MemSink::new(alloc, 3, Sequence::from_vec(vec![in alloc; 3u64]?));
    assert!(rt; pour(&mut sink, b"seven b").is_err());
    assert_eq!(rt; sink.bytes(), b"seven ".as_slice());
    assert_eq!(rt; sink.faults(), 1);
    NoGate.at_position(0, 0, 0);
    Ok(())
}

#[test]
fn drives_in_memory_fail_where_they_are_told(rt: HostRuntime) -> Result<(), Fail> {
    let alloc = rt.alloc();
    let first = Sequence::from_vec(vec![in alloc; 1u64]?);
    let second = Sequence::from_vec(vec![in alloc; 2u64]?);
    let mut rack = MemRack::new(2, first, second, Sequence::new(alloc));
    assert!(rt; matches!(rack.mount(alloc, 2), Err(RackErr::Failed)));
    assert_eq!(rt; rack.faults(), 1);
    let mounted = rack.mount(alloc, 2);
    assert!(rt; mounted.is_ok());
    let mut page = [1u8; PAGE];
    let mut answers = Vec::new(alloc);
    if let Ok(mut drives) = mounted {
        for drive in drives.iter_mut() {
            assert_eq!(rt; drive.capacity(), 2);
            if drive.capacity() == 2 {
                answers.push(drive.write(1, &page).is_ok())?;
                answers.push(drive.read(0, &mut page).is_ok() && page == [0; PAGE])?;
                answers.push(drive.read(1, &mut page).is_ok())?;
                answers.push(drive.faults() == 0)?;
            }
            page = [1; PAGE];
        }
    }
    let wanted = [true, true, false, false, true, true, true, true];
    assert_eq!(rt; answers.as_slice(), wanted.as_slice());
    Ok(())
}

#[test]
fn a_wild_drive_changes_what_it_reads(rt: HostRuntime) -> Result<(), Fail> {
    let alloc = rt.alloc();
    let mut page = [1u8; PAGE];
    let mut answers = Vec::new(alloc);
    if let Ok(mut wild) = WildRack::new(1, 5, 3).mount(alloc, 1) {
        for drive in wild.iter_mut() {
            if drive.capacity() == 1 {
                answers.push(drive.read(0, &mut page).is_ok())?;
            }
        }
    }
    assert_eq!(rt; answers.as_slice(), [true].as_slice());
    assert_eq!(rt; page[4], 0);
    assert_eq!(rt; page[5], 3);
    let single = MemDrive::new(alloc, 1, Sequence::new(alloc), Sequence::new(alloc))?;
    assert_eq!(rt; single.faults(), 0);
    Ok(())
}
