//! Settings from words.
ghost use Rattle.std.specs.Prelude.{IfSome};
ghost use Rattle.mkfs_ops.specs.Making.{AreSettings};

use mkfs_ops::Settings;
use s3_base::LIMIT;

/// Settings within their limits.
fn within(block_size: u32, slots: u32, now: u64) -> Option<Settings>
    ensures { IfSome result AreSettings }
{
    if block_size < 4096 || block_size > 10_485_760 || slots > 65_536 {
        return None;
    }
    if slots as u64 * block_size as u64 > 1 << 32 || now >= LIMIT {
        return None;
    }
    Some(Settings {
        block_size,
        slots,
        now,
    })
}

/// The settings that three numbers are.
pub fn settings_of(numbers: &[u64]) -> Option<Settings>
    ensures { IfSome result AreSettings }
{
    let [block_size, slots, now] = numbers else {
        return None;
    };
    let block_size = u32::try_from(*block_size).ok()?;
    let slots = u32::try_from(*slots).ok()?;
    within(block_size, slots, *now)
}
