//! What refutes a trace, for whoever makes, checks or hands on a refutation: its text, orders of a few effects, and the
//! laws of which traces no history explains.
#![tactic(auto)]

pub mod book_laws;
mod fault;
mod following;
mod layers;
pub mod line_laws;
mod order_laws;
mod piece;
pub mod place_laws;
mod reading;
mod refutation;
pub mod refuted_laws;
pub mod slice_laws;
mod states;
mod text_laws;
mod writing;

pub use crate::fault::RefutationFault;
pub use crate::layers::has_no_order;
pub use crate::order_laws::{else_some_list_is_an_order, no_list_is_an_order};
pub use crate::piece::{HeldBlock, HeldBlocks, Piece};
pub use crate::reading::read_refutation;
pub use crate::refutation::Refutation;
pub use crate::text_laws::refutations_have_one_spelling;
pub use crate::writing::write_refutation;
