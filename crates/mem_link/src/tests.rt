use crate::MemLink;
use s3_base::{ByteList, NumberList};
use s3_devices::{Link, LinkFault};
use std::test::Fail;

/// Two objects, a page of one key, and a call that fails.
#[test]
fn holds_objects(rt: HostRuntime) -> Result<(), Fail> {
    let alloc = rt.alloc();
    let fails = NumberList::from_slice(alloc, &[3])?;
    let mut link = MemLink::with_fails(alloc, fails);
    let first = ByteList::from_slice(alloc, b"a1")?;
    let second = ByteList::from_slice(alloc, b"a10")?;
    link.put(&second, &first)?;
    link.put(&first, &second)?;
    let page = link.list(&ByteList::new(alloc), 1)?;
    assert_eq!(rt; page.len(), 1);
    assert!(rt; link.get(&first) == Err(LinkFault::Failed));
    match link.get(&first)? {
        Some(bytes) => assert!(rt; bytes == second),
        None => assert!(rt; false),
    }
    Ok(())
}
