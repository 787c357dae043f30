//! The checker, for whoever judges a controller: it goes once over any list of steps, and finds the first that isn't
//! legal.
#![tactic(auto)]

mod block;
mod checker;
mod checking;
mod commands;
mod explaining;
mod fetch;
mod fields;
mod flight;
mod grant;
mod laws;
mod places;
mod post;
mod publish;
mod reap;
mod table_laws;
mod unit;
mod values;
mod why;

pub use crate::checker::Checker;
pub use crate::checking::{CheckFault, check};
pub use crate::commands::Commands;
pub use crate::flight::{CheckedTicket, TakenBlock};
pub use crate::laws::a_post_asks_for_its_rings;
pub use crate::table_laws::{
    a_block_asks_for_its_unit, one_pass_is_enough, the_tables_go_on, the_tables_judge,
};
pub use crate::values::write_range;
