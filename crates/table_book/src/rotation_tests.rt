//! What no contract says of opening and rotation: that there is memory, and which calls and bytes
//! come of them.
use crate::{Book, Rotated};
use hs_disk::MemDisk;
use hs_schema::empty;
use std::test::Fail;

// A journal without a schema line, up to the selector of its root.
const FRONT: &[u8] = b"\x01HSJRNL01\0\0\0\0\x01\0\0\0\x15\xff\xff\xff\xff";

// Both cells of the root, and a segment in each of the places that they name, without a row.
const BEHIND: &[u8] =
    b"\0\0\0\0\0\0\0\x28\0\0\0\0\0\0\0\x39\0\0\0\0\0\0\0\0\0\0\0\0\x04\0\0\0\0\0\0\0\0\0\0\0\0\0\0\0\0\x04\0\0\0\0\0";

// The call that fails, what comes of the first rotation, and the calls and the selector behind the
// second one, which is done.
#[test]
fn a_rotation_is_tried_again(rt: HostRuntime) -> Result<(), Fail> {
    let alloc = rt.alloc();
    for (fail_at, first, calls, selector) in [
        (0u64, Rotated::Done, 24u64, 0u8),
        (15, Rotated::DiskFault, 20, 1),
        (16, Rotated::DiskFault, 21, 1),
        (17, Rotated::DiskFault, 22, 1),
        (18, Rotated::DiskFault, 25, 1),
        (19, Rotated::DiskFault, 26, 1),
    ] {
        let disk = MemDisk::of(alloc, &[], &[fail_at])?;
        let mut book = match Book::open_on(alloc, disk, empty(alloc), 2, 1000) {
            Ok(book) => book,
            Err((refusal, _)) => return Err(Fail::from(refusal)),
        };
        assert_eq!(rt; book.rotate(alloc), first, "{fail_at}");
        assert_eq!(rt; book.rotate(alloc), Rotated::Done, "{fail_at}");
        assert_eq!(rt; (book.place(), book.since_area()), (0, 0), "{fail_at}");
        let disk = book.close();
        assert_eq!(rt; disk.changing_calls(), calls, "{fail_at}");
        let mut bytes = FRONT.to_vec(alloc)?;
        bytes.push(selector)?;
        bytes.extend_from_slice(BEHIND)?;
        assert!(rt; disk.bytes() == bytes.as_slice(), "{fail_at}");
    }
    Ok(())
}
