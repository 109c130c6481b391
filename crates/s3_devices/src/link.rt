//! What every store of objects is.
ghost use Rattle.std.specs.Prelude.{◌≡◌, ◌<◌, ◌≤◌, ℕ, Option, option_map, length, IfOk, OnOk, OnErr};
ghost use Rattle.s3_base.specs.Faults.{HasCause};
ghost use Rattle.s3_devices.specs.Objects.{Objects, held_at, with_object, without_object, KeepsOthers, IsKeptOrGone};
ghost use Rattle.s3_devices.specs.Told.{IfTold, Becomes};
ghost use Rattle.s3_devices.specs.LinkAnswers.{has_failed, listed, key_limit, IsKeyPage};

use crate::KeyList;
use s3_base::ByteList;
use std::alloc::AllocError;

/// Why a link gave no answer.
#[derive(Clone, Copy, Debug, PartialEq, Eq)]
pub enum LinkFault {
    /// The device that it stands on failed.
    Failed,
    /// There was no memory for the answer or for the change.
    Memory,
}

impl From<AllocError> for LinkFault {
    ghost use Rattle.std.specs.Prelude.{◌≡◌};
    ghost use Rattle.s3_devices.specs.declared.link.LinkFault.TheVariants.{Memory};

    ghost from_gives = { λ _ fault. fault ≡ Memory };

    fn from(_refused: AllocError) -> Self {
        LinkFault::Memory
    }
}

/// The object store: keys, and the bytes that each holds. A link may tell its objects; where it does not, the clauses on
/// objects say nothing, and a list still rises strictly and has at most `max` keys, so that a loop over pages ends.
pub trait Link {
    /// The objects, where the link tells them.
    ghost told: { Self → Option Objects };

    /// How often the device below has failed.
    ghost faults: { Self → ℕ };

    /// Stores the bytes under the key, in place of what it held. After a refusal the key holds anything or is absent. All
    /// other keys stay.
    fn put(&mut self, key: &ByteList, bytes: &ByteList) -> Result<(), LinkFault>
        requires { length key.now ≤ key_limit }
        ensures ok { OnOk result (told self.new ≡ option_map (with_object key.now bytes.now) (told self.old)) }
        ensures err { OnErr result (Becomes (KeepsOthers key.now) (told self.old) (told self.new)) }
        ensures cause { HasCause (faults self.old) (faults self.new) (has_failed result) };

    /// The bytes that the key holds, none exactly where it is absent.
    fn get(&mut self, key: &ByteList) -> Result<Option<ByteList>, LinkFault>
        ensures held { IfOk result (λ r. IfTold (told self.old) (λ o. r ≡ held_at o key.now)) }
        ensures same { told self.new ≡ told self.old }
        ensures cause { HasCause (faults self.old) (faults self.new) (has_failed result) };

    /// Takes the key away, if it is there. After a refusal it holds what it held or is absent. All other keys stay.
    fn delete(&mut self, key: &ByteList) -> Result<(), LinkFault>
        ensures ok { OnOk result (told self.new ≡ option_map (without_object key.now) (told self.old)) }
        ensures err { OnErr result (Becomes (IsKeptOrGone key.now) (told self.old) (told self.new)) }
        ensures cause { HasCause (faults self.old) (faults self.new) (has_failed result) };

    /// The first `max` keys past `after`, by bytes, each with the number of bytes that it holds.
    fn list(&mut self, after: &ByteList, max: u32) -> Result<KeyList, LinkFault>
        requires { 0 < max }
        ensures keys { IfOk result (λ l. IfTold (told self.old) (λ o. l ≡ listed after.now max o)) }
        ensures page { IfOk result (λ l. IsKeyPage after.now max l) }
        ensures same { told self.new ≡ told self.old }
        ensures cause { HasCause (faults self.old) (faults self.new) (has_failed result) };
}
