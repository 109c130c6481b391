//! The words of a command.
ghost use Rattle.std.specs.Prelude.{◌≡◌, ◌-◌, ◌^◌, ◌<◌, ◌≤◌, ℕ, min, IsTrue, IfSome, option_map, Some};
ghost use Rattle.std.specs.List.{list_all};
ghost use Rattle.std.specs.Str.Parse.{digits_value};
ghost use Rattle.offline_tool.specs.Limits.{AreWithin};
ghost use Rattle.offline_tool.specs.Words as words;
ghost use Rattle.offline_tool.specs.Words.{is_digit, limits_from, limits_of};

use s3_base::WordList;

/// The most bytes that the blocks of the cache take, and those of the slots.
const MAX_BYTES: u64 = 1 << 32;

/// What a replay's words say: the size of a block in bytes, the entries of the cache, and the slots of the cache disk.
#[derive(Clone, Copy, Debug, PartialEq, Eq)]
pub struct Limits {
    pub block_size: u32,
    pub cache: u32,
    pub slots: u32,
}

fn all_digits(bytes: &[u8]) -> bool
    ensures { result ≡ list_all is_digit bytes.now }
{
    bytes.iter().all(|b| b.is_ascii_digit())
}

fn is_numeral(word: &[u8]) -> bool
    ensures { result ≡ words.is_numeral word.now }
{
    match word {
        [] => false,
        [digit] => digit.is_ascii_digit(),
        [first, ..] => *first != b'0' && all_digits(word),
    }
}

/// The number that digits spell, or the greatest one where it is greater.
fn value_of(digits: &[u8]) -> u64
    requires { IsTrue (list_all is_digit digits.now) }
    ensures { result ≡ min (digits_value 10 digits.now) (2 ^ 64 - 1) }
{
    let mut value = 0u64;
    for digit in digits {
        value = value
            .saturating_mul(10)
            .saturating_add((*digit - b'0') as u64);
    }
    value
}

/// The number that a word spells, if it is from `low` to `high`.
fn number_within(low: u32, high: u32, word: &[u8]) -> Option<u32>
    ensures number { result ≡ words.number_within low high word.now }
    ensures within { IfSome result (λ n. (low ≤ n) × (n ≤ high)) }
{
    if !is_numeral(word) {
        return None;
    }
    let value = value_of(word);
    if value < low as u64 || value > high as u64 {
        return None;
    }
    Some(value as u32)
}

/// The limits, if the blocks of the cache and those of the slots take no more than the most bytes.
fn limits_within(block_size: u32, cache: u32, slots: u32) -> Option<Limits>
    requires least { 4096 ≤ block_size }
    requires greatest { block_size ≤ 10485760 }
    requires slots { slots ≤ 65536 }
    ensures within { IfSome result AreWithin }
    ensures limits { option_map (λ l. record { block_size = l.block_size; cache = l.cache; slots = l.slots }) result ≡ limits_from (Some block_size) (Some cache) (Some slots) }
{
    let (block, cached, kept) = (block_size as u64, cache as u64, slots as u64);
    if cached * block > MAX_BYTES || kept * block > MAX_BYTES {
        return None;
    }
    Some(Limits {
        block_size,
        cache,
        slots,
    })
}

/// What the words of a replay say, if these are such words.
pub fn replay_words(words: &WordList) -> Option<Limits>
    ensures within { IfSome result AreWithin }
    ensures limits { option_map (λ l. record { block_size = l.block_size; cache = l.cache; slots = l.slots }) result ≡ limits_of words.now }
{
    let [command, block_size, cache, slots] = words.as_slice() else {
        return None;
    };
    if command.as_slice() != b"replay".as_slice() {
        return None;
    }
    let block_size = number_within(4096, 10_485_760, block_size.as_slice())?;
    let cache = number_within(64, 4096, cache.as_slice())?;
    let slots = number_within(0, 65_536, slots.as_slice())?;
    limits_within(block_size, cache, slots)
}
