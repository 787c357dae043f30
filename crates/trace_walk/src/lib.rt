//! Makes the steps of a history that is looked for, and takes them back, for `trace_search`. Together the two have more
//! than 3,000 lines of code. Nobody has to trust it: what is found is certified.
#![tactic(auto)]

mod block_set;
mod fitting;
mod making;
mod matching;
mod numbers;
mod refusing;
mod scanning;
mod states;
mod tables;
mod ticket;
mod undoing;
mod values;
mod walk;

pub use crate::block_set::BlockSet;
pub use crate::fitting::{fits, is_sure, wanted_completion};
pub use crate::numbers::{number_at, set_number, zeros};
pub use crate::scanning::read_tables;
pub use crate::tables::{Awaited, Line, NOBODYS, Need, OPEN, Published, TraceTables, Unfit};
pub use crate::ticket::{Gives, SoughtOp, SoughtTicket, status_of};
pub use crate::values::mixed;
pub use crate::walk::{Choice, Fixed, Move, Walk};
