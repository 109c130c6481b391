//! The numbers in keys of the store.
ghost use Rattle.std.specs.Prelude.{◌≡◌, ◌-◌, ◌^◌, ◌<◌, min, IsTrue, IfSome};
ghost use Rattle.std.specs.List.{list_all};
ghost use Rattle.std.specs.Str.Parse.{digits_value};
ghost use Rattle.s3_rows.specs.Rows.{IsId};
ghost use Rattle.metadata_backup.specs.Numbers as numbers;
ghost use Rattle.metadata_backup.specs.Numbers.{is_digit};

use s3_base::LIMIT;

/// How many digits the key of a generation has.
const DIGITS: usize = 20;

fn all_digits(bytes: &[u8]) -> bool
    ensures { result ≡ list_all is_digit bytes.now }
{
    bytes.iter().all(|b| b.is_ascii_digit())
}

/// The number that digits write, or the greatest one where it is greater.
fn value_of(digits: &[u8]) -> u64
    requires { IsTrue (list_all is_digit digits.now) }
    ensures { result ≡ min (digits_value 10 digits.now) (2 ^ 64 - 1) }
{
    let mut value = 0u64;
    for digit in digits {
        value = value
            .saturating_mul(10)
            .saturating_add((*digit - b'0') as u64);
    }
    value
}

/// The number from 1 to 2^62 - 1 that decimal digits write.
#[tactic(auto, unfolding(crate::specs::Numbers::number_of))]
fn number_of(digits: &[u8]) -> Option<u64>
    ensures number { result ≡ numbers.number_of digits.now }
    ensures id { IfSome result IsId }
{
    if !all_digits(digits) {
        return None;
    }
    let value = value_of(digits);
    if value == 0 || value >= LIMIT {
        return None;
    }
    Some(value)
}

/// The generation of the metadata that a key names.
#[tactic(auto, unfolding(crate::specs::Numbers::generation_of))]
pub fn generation_of(key: &[u8]) -> Option<u64>
    ensures number { result ≡ numbers.generation_of key.now }
    ensures id { IfSome result IsId }
{
    let digits = key.strip_prefix(b"s3ql_metadata_")?;
    if digits.len() != DIGITS {
        return None;
    }
    number_of(digits)
}

/// The data object that a key names.
#[tactic(auto, unfolding(crate::specs::Numbers::object_of))]
pub fn object_of(key: &[u8]) -> Option<u64>
    ensures number { result ≡ numbers.object_of key.now }
    ensures id { IfSome result IsId }
{
    let digits = key.strip_prefix(b"s3ql_data_")?;
    if digits.first() == Some(&b'0') {
        return None;
    }
    number_of(digits)
}
