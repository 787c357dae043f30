//! Finds what a ticket has, among a few.

ghost use Rattle.std.specs.Prelude.{◌<◌, IfSome, length};

/// What is of a ticket.
pub(crate) trait OfTicket {
    fn ticket(&self) -> u64;
}

/// Where that of this ticket stands.
pub(crate) fn place_of<T: OfTicket>(all: &[T], ticket: u64) -> Option<usize>
    ensures { IfSome result (λ at. at < length all.now) }
{
    for at in 0..all.len() {
        if all[at].ticket() == ticket {
            return Some(at);
        }
    }
    None
}
