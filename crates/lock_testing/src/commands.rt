//! Commands that are published, and fetched.

ghost use Rattle.std.specs.Prelude.{◌≡◌, IfOk, vec_len};
ghost use Rattle.shared_system.specs.Plain.{IsFreshWork, IsPlainCallerOf};

use crate::messages::{NO_MEMORY, fetches, opens};
use nvme_model::submission::{Payload, Submission, Submissions};
use shared_system::{PlainCaller, PlainSystem};
use std::alloc::{AllocError, Global};
use std::sync::Wait;
use work_queue::{Open, Work};

// The opcode of a Flush.
const FLUSH: u8 = 0;

/// The opcode of a Write.
pub const WRITE: u8 = 1;

/// A Flush, or a Write of one block, each byte of it this one.
#[derive(Clone, Copy)]
pub struct Command {
    pub opcode: u8,
    pub queue: u16,
    pub cid: u16,
    pub block: u8,
    pub byte: u8,
}

/// A Flush on this queue.
pub fn flush(queue: u16, cid: u16) -> Command
    ensures flush { result ≡ record { opcode = 0; queue = queue; cid = cid; block = 0; byte = 0 } }
{
    Command {
        opcode: FLUSH,
        queue,
        cid,
        block: 0,
        byte: 0,
    }
}

// Its data: 512 bytes of a Write.
fn data_of(alloc: Global, command: Command) -> Result<Vec<u8>, AllocError> {
    let mut bytes = Vec::new(alloc);
    if command.opcode == WRITE {
        for _ in 0..512 {
            bytes.push(command.byte)?;
        }
    }
    Ok(bytes)
}

/// Its one entry, with its data.
///
/// # Errors
///
/// `AllocError` where memory is refused.
pub fn items_of(alloc: Global, command: Command) -> Result<Vec<Submission>, AllocError>
    ensures one { IfOk result (λ v. vec_len v ≡ 1) }
{
    let mut entry = [0; 64];
    let cid = command.cid.to_le_bytes();
    entry[0] = command.opcode;
    entry[2] = cid[0];
    entry[3] = cid[1];
    entry[4] = 1;
    entry[40] = command.block;
    let payload = Payload::new(data_of(alloc, command)?);
    let mut items = Vec::new(alloc);
    items.push(Submission { entry, payload })?;
    Ok(items)
}

/// The command, published and fetched by one caller.
///
/// # Errors
///
/// The number of a refusal, `NO_MEMORY` where memory is refused.
pub fn begun<R: Wait>(
    rt: &R,
    alloc: Global,
    system: &PlainSystem,
    caller: &mut PlainCaller,
    command: Command,
) -> Result<Work, u8>
    requires { IsPlainCallerOf system.now caller.old }
    ensures same { IsPlainCallerOf system.now caller.new }
    ensures fresh { IfOk result (IsFreshWork system.now) }
{
    let Ok(items) = items_of(alloc, command) else {
        return Err(NO_MEMORY);
    };
    let request = Open::Publish(command.queue, Submissions::new(items));
    opens(rt, system, caller, request)?;
    fetches(rt, system, caller, command.queue)
}
