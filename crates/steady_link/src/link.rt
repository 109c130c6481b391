ghost use Rattle.std.specs.Prelude.{Some};

use crate::SteadyLink;
use s3_base::ByteList;
use s3_devices::{KeyList, Link, LinkFault};

/// No call counts a fault, so that none answers `LinkFault::Failed`.
impl Link for SteadyLink {
    ghost told = { λ s. Some s };

    ghost faults = { λ _. 0 };

    fn put(&mut self, key: &ByteList, bytes: &ByteList) -> Result<(), LinkFault> {
        self.link.put(key, bytes)
    }

    fn get(&mut self, key: &ByteList) -> Result<Option<ByteList>, LinkFault> {
        self.link.get(key)
    }

    fn delete(&mut self, key: &ByteList) -> Result<(), LinkFault> {
        self.link.delete(key)
    }

    fn list(&mut self, after: &ByteList, max: u32) -> Result<KeyList, LinkFault> {
        self.link.list(after, max)
    }
}
