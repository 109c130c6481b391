//! The parameters.
ghost use Rattle.std.specs.Prelude.{◌≡◌, ◌≢◌, ◌≤◌, ◌*◌, ◌^◌, ◌<◌, length, IfOk, map};
ghost use Rattle.sqlite_value.specs.Value.{owned};
ghost use Rattle.sqlite_value.specs.declared.value.Value.TheVariants.{Int};
ghost use Rattle.sqlite_value.specs.Order.{column};
ghost use Rattle.s3_rows.specs.declared.params.State.{State};
ghost use Rattle.s3_rows.specs.Rows.{Parameters, IsParameters};
ghost use Rattle.sqlite_rows.specs.Values.{IsParamsRow, number, state_number};

use crate::fields::{check_width, count_in, next_in, number_in, small_in};
use s3_rows::{KeeperFault, Params, State};
use sqlite::Row;
use sqlite_value::value::ValueRef;

/// The largest block, in bytes.
const MAX_BLOCK: u32 = 10_485_760;

/// The most slots of a cache disk.
const MAX_SLOTS: u32 = 65_536;

/// The longest cache disk, in bytes.
const MAX_DISK: u64 = 1 << 32;

fn state_number(state: State) -> i64
    ensures { Int result ≡ number (state_number state) }
{
    match state {
        State::Clean => 0,
        State::Mounted => 1,
        State::Restored => 2,
    }
}

// The state that a column has the number of.
fn state_in(row: &Row, at: usize) -> Result<State, KeeperFault>
    ensures read { IfOk result (λ s. column row.now at ≡ number (state_number s)) }
    ensures refused { result ≡ Err KeeperFault.Failed → (s : State) → at < length row.now → column row.now at ≢ number (state_number s) }
{
    match number_in(row, at, 0, 2)? {
        0 => Ok(State::Clean),
        1 => Ok(State::Mounted),
        _ => Ok(State::Restored),
    }
}

// The size of blocks, and the slots of the cache disk, which is not too long.
fn sizes_of(row: &Row) -> Result<(u32, u32), KeeperFault>
    ensures block_size { IfOk result (λ x. column row.now 1 ≡ number x.0) }
    ensures slots { IfOk result (λ x. column row.now 2 ≡ number x.1) }
    ensures least { IfOk result (λ x. 4096 ≤ x.0) }
    ensures greatest { IfOk result (λ x. x.0 ≤ 10485760) }
    ensures few { IfOk result (λ x. x.1 ≤ 65536) }
    ensures disk { IfOk result (λ x. x.1 * x.0 ≤ 2 ^ 32) }
    ensures refused { result ≡ Err KeeperFault.Failed → length row.now ≡ 10 → (r : Parameters) → IsParameters r → column row.now 1 ≡ number r.block_size → column row.now 2 ≢ number r.slots }
{
    let block_size = small_in(row, 1, 4096, MAX_BLOCK)?;
    let slots = small_in(row, 2, 0, MAX_SLOTS)?;
    if slots as u64 * block_size as u64 > MAX_DISK {
        return Err(KeeperFault::Failed);
    }
    Ok((block_size, slots))
}

pub fn params_values(params: &Params) -> [ValueRef<'static>; 10]
    ensures { IsParamsRow (map owned result) params.now }
{
    [
        ValueRef::Int(params.revision as i64),
        ValueRef::Int(params.block_size as i64),
        ValueRef::Int(params.slots as i64),
        ValueRef::Int(state_number(params.state)),
        ValueRef::Int(params.next_inode as i64),
        ValueRef::Int(params.next_name as i64),
        ValueRef::Int(params.next_block as i64),
        ValueRef::Int(params.next_object as i64),
        ValueRef::Int(params.generation as i64),
        ValueRef::Int(params.last_done as i64),
    ]
}

/// The parameters of this revision that have these values.
pub fn params_of(row: &Row) -> Result<Params, KeeperFault>
    ensures read { IfOk result (IsParamsRow row.now) }
    ensures refused { result ≡ Err KeeperFault.Failed → (r : Parameters) → IsParameters r → IsParamsRow row.now r → ⊥ }
{
    check_width(row, 10)?;
    let (block_size, slots) = sizes_of(row)?;
    let generation = count_in(row, 8)?;
    Ok(Params {
        revision: small_in(row, 0, 1, 1)?,
        block_size,
        slots,
        state: state_in(row, 3)?,
        next_inode: next_in(row, 4)?,
        next_name: next_in(row, 5)?,
        next_block: next_in(row, 6)?,
        next_object: next_in(row, 7)?,
        generation,
        last_done: number_in(row, 9, 0, generation)?,
    })
}
