//! The shapes of a history's picture, for whoever draws one: which bar, box, cell and rule goes where, and what lanes
//! show.
#![tactic(auto)]

mod bar;
mod bars;
mod belief;
mod block;
mod blocks;
mod content;
mod head;
mod lane_entries;
mod lane_entry;
mod lanes;
mod laws;
mod picture;
mod picture_words;
mod rows;
mod ticket_boxes;

pub use crate::bar::{Bar, BarStage, Cell, EntryFetch, OpenBar, Posting};
pub use crate::bars::Bars;
pub use crate::belief::{Belief, Beliefs};
pub use crate::block::{BlockNow, Span, SpanKind};
pub use crate::blocks::Blocks;
pub use crate::content::Content;
pub use crate::head::{EntryKind, Head};
pub use crate::lane_entries::LaneEntries;
pub use crate::lane_entry::{LaneEntry, LaneEntryStage, SlotName, Win};
pub use crate::lanes::{Lanes, LanesShown};
pub use crate::laws::each_entry_has_one_column;
pub use crate::picture::{Aspect, BadColumn, Picture, Subject};
pub use crate::picture_words::PictureWords;
pub use crate::rows::{LaneRow, Rows};
pub use crate::ticket_boxes::{OpenTicket, TicketBox, TicketBoxes, UnitBox};
