//! Texts as files.

use std::alloc::{AllocError, Global};

/// The configuration of lines that have none of their own.
const CONFIG: &str = "config 8 1 1 0 0 2 4 4 8";

/// Lines, parted by ` / `, as a file.
pub(crate) fn file_of(alloc: Global, lines: &str) -> Result<String, AllocError> {
    let mut file = String::new(alloc);
    if !lines.starts_with("config") {
        file.push_str(CONFIG)?;
        file.push_str("\n")?;
    }
    for line in lines.split(" / ") {
        file.push_str(line)?;
        file.push_str("\n")?;
    }
    Ok(file)
}
