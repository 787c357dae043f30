//! The name in `--show` that is none of a kind of lines.

use crate::request::UsageFault;
use bitflags::Flags;
use history::Kinds;
use std::alloc::Global;

// Why this name is refused.
fn no_kind(alloc: Global, name: &str) -> UsageFault {
    let text = format!(in alloc;
        "error: no kind of lines is called '{name}' in '--show': there are publish, fetch, grant, block, post, reap, refused and medium"
    );
    match text {
        Ok(text) => UsageFault::Text(text),
        Err(_) => UsageFault::NoMemory,
    }
}

// Why a text is refused that names kinds of lines, joined by commas: for its first name that is none, or else its last.
pub(crate) fn no_kinds_in(alloc: Global, text: &str) -> UsageFault {
    let mut rest = text;
    for _turn in 0..u64::MAX {
        let Some((name, after)) = rest.split_once(',') else {
            return no_kind(alloc, rest);
        };
        if Kinds::from_name(name).is_none() {
            return no_kind(alloc, name);
        }
        rest = after;
    }
    no_kind(alloc, rest)
}
