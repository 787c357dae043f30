//! What a call asks for, and its data.

use nvme_model::operation::Op;
use nvme_model::submission::Payload;

/// What a call asks of the controller: an operation on so many blocks of the namespace from block `slba` on. `Op::Pair`
/// is a Compare and a Write of the same blocks, fused.
#[derive(Clone, Copy, Debug, PartialEq, Eq)]
pub struct Request {
    pub op: Op,
    pub slba: u64,
    /// How many, 1 to 256: a controller answers Invalid Field in Command to more.
    pub blocks: u32,
}

/// The data of a call, 512 bytes a block of a Write or a Compare, and none of a Read or a Write Zeroes.
#[derive(Drop)]
pub enum CallData {
    /// That of its one command.
    One(Payload),
    /// That of a fused pair: of its Compare, and of its Write.
    Two(Payload, Payload),
}
