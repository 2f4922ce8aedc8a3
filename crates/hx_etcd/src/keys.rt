//! The keys of records.
ghost use Rattle.std.specs.Prelude.{◌≡◌, IfOk};
ghost use Rattle.hx_etcd.specs.Keys.{key_of, copy_key, heartbeat_key};

use hx_units::NoMemory;
use itoa::Buffer;
use std::alloc::Global;

// The noughts of a key's number: one for each of its digits.
const NOUGHTS: &[u8; 12] = b"000000000000";

/// The key of the record of this number: `hx/` and the number by twelve digits, as `hx/000000000001`. The keys of
/// numbers below 1,000,000,000,000 are in the numbers' order.
pub fn key(alloc: Global, number: u64) -> Result<Vec<u8>, NoMemory>
    ensures { IfOk result (λ key. key.items ≡ key_of number) }
{
    let mut buffer = Buffer::new();
    let digits = buffer.format(number).as_bytes();
    let missing = NOUGHTS.len().saturating_sub(digits.len());
    let mut key = Vec::new(alloc);
    key.extend_from_slice(b"hx/")?;
    key.extend_from_slice(&NOUGHTS[..missing])?;
    key.extend_from_slice(digits)?;
    Ok(key)
}

// The key under which a copy of the log shows how much it has: `hc/` and its number, as `hc/1`.
pub(crate) fn copy_key(alloc: Global, copy: u64) -> Result<Vec<u8>, NoMemory>
    ensures { IfOk result (λ key. key.items ≡ copy_key copy) }
{
    let mut buffer = Buffer::new();
    let mut key = Vec::new(alloc);
    key.extend_from_slice(b"hc/")?;
    key.extend_from_slice(buffer.format(copy).as_bytes())?;
    Ok(key)
}

// The key of a writer's heartbeat: `hy/` and the writer's number, as `hy/7`.
pub(crate) fn heartbeat_key(alloc: Global, writer: u64) -> Result<Vec<u8>, NoMemory>
    ensures { IfOk result (λ key. key.items ≡ heartbeat_key writer) }
{
    let mut buffer = Buffer::new();
    let mut key = Vec::new(alloc);
    key.extend_from_slice(b"hy/")?;
    key.extend_from_slice(buffer.format(writer).as_bytes())?;
    Ok(key)
}
