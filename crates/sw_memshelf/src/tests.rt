//! Disks that go out and come back.

use crate::MemShelf;
use std::test::Fail;
use sw_disk::Disk;
use sw_shelf::{Shelf, ShelfFault};

#[test]
fn gives_and_takes_disks(rt: HostRuntime) -> Result<(), Fail> {
    let alloc = rt.alloc();
    let mut shelf = MemShelf::new(alloc);
    shelf.fail_at(3, vec![in alloc; 1]?);
    shelf.refuse(2);
    let mut first = shelf.disk(alloc, 3, 9)?;
    let second = shelf.disk(alloc, 4, 9)?;
    assert!(rt; first.folders(alloc).is_err());
    assert_eq!(rt; shelf.disk(alloc, 2, 9).err(), Some(ShelfFault::Failed));
    shelf.back(4, second);
    shelf.back(3, first);
    assert_eq!(rt; (shelf.returned()[0].0, shelf.returned()[1].0), (4, 3));
    Ok(())
}
