//! Draws a history as SVG text, for the program: its steps in columns, with lanes of blocks and of slots. And writes
//! the data of a web page in which a script shows it.
#![tactic(auto)]

mod boxes;
mod column_heads;
mod columns;
mod drawer;
mod drawing;
mod drawn;
mod entries;
mod fault;
mod lane_boxes;
mod lane_names;
mod lane_rows;
mod lane_style;
mod layout;
mod page;
mod pieces;
mod reading;
mod scale;
mod seen;
mod slot_holders;
mod spans;
mod style;
mod tickets;
mod web_page;

pub use crate::boxes::{Frame, push_rect, push_words};
pub use crate::columns::{Columns, room, top_of};
pub use crate::drawer::DrawOptions;
pub use crate::drawing::draw_text;
pub use crate::fault::DrawFault;
pub use crate::lane_rows::push_lanes;
pub use crate::layout::Layout;
pub use crate::page::picture_text;
pub use crate::pieces::{Piece, push_all};
pub use crate::web_page::page_text;
