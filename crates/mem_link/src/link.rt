ghost use Rattle.std.specs.Prelude.{◌≡◌, ◌<◌, ◌≤◌, Some, length, IfOk, OnOk, OnErr};
ghost use Rattle.s3_base.specs.Faults.{HasCause};
ghost use Rattle.s3_devices.specs.Objects.{held_at, with_object, without_object};
ghost use Rattle.s3_devices.specs.LinkAnswers.{has_failed, listed, key_limit, IsKeyPage};
ghost use Rattle.mem_link.specs.Memory.{IsCall};

use crate::MemLink;
use crate::objects::{copy_of_object, delete_object, keys_past, put_object};
use s3_base::ByteList;
use s3_devices::{KeyList, Link, LinkFault, listed_keys_are_a_page};

/// Every call is counted, and fails where its number is listed. Else only a lack of memory refuses it. A call that is refused
/// leaves all objects.
impl Link for MemLink {
    ghost told = { λ l. Some l.objects };

    ghost faults = { λ l. l.faults };

    fn put(&mut self, key: &ByteList, bytes: &ByteList) -> Result<(), LinkFault>
        requires { length key.now ≤ key_limit }
        ensures ok { OnOk result (self.new.objects ≡ with_object key.now bytes.now self.old.objects) }
        ensures err { OnErr result (self.new.objects ≡ self.old.objects) }
        ensures cause { HasCause self.old.faults self.new.faults (has_failed result) }
        ensures call { IsCall result self.old self.new }
    {
        self.begin()?;
        let key = key.clone()?;
        let bytes = bytes.clone()?;
        put_object(&mut self.objects, key, bytes)?;
        Ok(())
    }

    fn get(&mut self, key: &ByteList) -> Result<Option<ByteList>, LinkFault>
        ensures held { IfOk result (λ r. r ≡ held_at self.old.objects key.now) }
        ensures same { self.new.objects ≡ self.old.objects }
        ensures cause { HasCause self.old.faults self.new.faults (has_failed result) }
        ensures call { IsCall result self.old self.new }
    {
        self.begin()?;
        Ok(copy_of_object(&self.objects, key)?)
    }

    fn delete(&mut self, key: &ByteList) -> Result<(), LinkFault>
        ensures ok { OnOk result (self.new.objects ≡ without_object key.now self.old.objects) }
        ensures err { OnErr result (self.new.objects ≡ self.old.objects) }
        ensures cause { HasCause self.old.faults self.new.faults (has_failed result) }
        ensures call { IsCall result self.old self.new }
    {
        self.begin()?;
        delete_object(&mut self.objects, key);
        Ok(())
    }

    fn list(&mut self, after: &ByteList, max: u32) -> Result<KeyList, LinkFault>
        requires { 0 < max }
        ensures keys { IfOk result (λ l. l ≡ listed after.now max self.old.objects) }
        ensures page { IfOk result (λ l. IsKeyPage after.now max l) }
        ensures same { self.new.objects ≡ self.old.objects }
        ensures cause { HasCause self.old.faults self.new.faults (has_failed result) }
        ensures call { IsCall result self.old self.new }
    {
        self.begin()?;
        listed_keys_are_a_page();
        Ok(keys_past(self.alloc, &self.objects, after, max)?)
    }
}
