use crate::{Kept, KeptList};
use lists::Sequence;
use rows::{ColType, Column, Text};
use std::alloc::{AllocError, Global};
use std::test::Fail;

// A kept relation of one integer column of this bound.
fn kept_of(alloc: Global, name: &[u8], statement: u32, bound: u64) -> Result<Kept, AllocError> {
    let mut columns = Vec::new(alloc);
    columns.push(Column {
        name: Text::from_slice(alloc, b"big")?,
        col_type: ColType::Int4,
        nullable: true,
    })?;
    let mut bounds = Vec::new(alloc);
    bounds.push(bound)?;
    Ok(Kept {
        name: Text::from_slice(alloc, name)?,
        statement,
        columns: Sequence::from_vec(columns),
        bounds: Sequence::from_vec(bounds),
    })
}

fn keep_new(list: &mut KeptList, kept: Kept) -> Result<(), AllocError> {
    if list.find(kept.name.items()).is_none() {
        list.keep(kept)?;
    }
    Ok(())
}

#[test]
fn relations_are_found_by_their_names(rt: HostRuntime) -> Result<(), Fail> {
    let alloc = rt.alloc();
    let mut list = KeptList::new(alloc);
    assert!(rt; list.is_empty());
    for (name, statement, bound) in [(b"RICH", 0, 21474836480), (b"POOR", 2, 7)] {
        keep_new(
            &mut list,
            kept_of(alloc, name.as_slice(), statement, bound)?,
        )?;
    }
    assert_eq!(rt; list.len(), 2);
    assert_eq!(rt; list.find(b"RICH"), Some(0));
    assert_eq!(rt; list.find(b"POOR"), Some(1));
    assert_eq!(rt; list.find(b"RICHER"), None);
    Ok(())
}
