use crate::{LoadFault, fetch, store};
use hash_index::digest;
use mem_link::MemLink;
use s3_base::ByteList;
use s3_rows::Digest;
use std::alloc::Global;
use std::test::Fail;

/// SHA-256 of `abd`, from another implementation.
const OF_ABD: Digest = Digest([
    0xa5, 0x2d, 0x15, 0x9f, 0x26, 0x2b, 0x2c, 0x6d, 0xdb, 0x72, 0x4a, 0x61, 0x84, 0x0b, 0xef, 0xc3,
    0x6e, 0xb3, 0x0c, 0x88, 0x87, 0x7a, 0x40, 0x30, 0xb6, 0x5c, 0xbe, 0x86, 0x29, 0x84, 0x49, 0xc9,
]);

fn bytes(alloc: Global, text: &[u8]) -> Result<ByteList, Fail> {
    Ok(ByteList::from_slice(alloc, text)?)
}

// An object that was stored is read again, one that is absent or that holds other bytes is lost.
#[test]
fn stored_objects_are_read(rt: HostRuntime) -> Result<(), Fail> {
    let alloc = rt.alloc();
    let mut link = MemLink::new(alloc);
    let kept = digest(b"abc".as_slice());
    let lost = fetch(alloc, &mut link, 1, &kept);
    assert_eq!(rt;
        lost,
        Err(LoadFault::Lost {
            object: 1,
            kept,
            got: None
        })
    );
    assert_eq!(rt;
        store(alloc, &mut link, 1, &bytes(alloc, b"abc".as_slice())?),
        Ok(())
    );
    assert_eq!(rt;
        fetch(alloc, &mut link, 1, &kept),
        Ok(bytes(alloc, b"abc".as_slice())?)
    );
    assert_eq!(rt;
        store(alloc, &mut link, 1, &bytes(alloc, b"abd".as_slice())?),
        Ok(())
    );
    let lost = fetch(alloc, &mut link, 1, &kept);
    assert_eq!(rt;
        lost,
        Err(LoadFault::Lost {
            object: 1,
            kept,
            got: Some(OF_ABD)
        })
    );
    Ok(())
}
