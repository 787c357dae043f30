//! Lists of numbers that are looked up by places which may be beyond their ends.

use std::alloc::{AllocError as NoMemory, Global};

/// So many zeros.
///
/// # Errors
///
/// `NoMemory` alone.
pub fn zeros(alloc: Global, count: usize) -> Result<Vec<usize>, NoMemory> {
    let mut numbers = Vec::new(alloc);
    for _ in 0..count {
        numbers.push(0)?;
    }
    Ok(numbers)
}

/// A number of a list; 0 where there is none.
pub fn number_at(numbers: &[usize], place: usize) -> usize {
    numbers.get(place).copied().unwrap_or(0)
}

/// Changes a number of a list, where there is one.
pub fn set_number(numbers: &mut Vec<usize>, place: usize, number: usize) {
    if let Some(known) = numbers.get_mut(place) {
        *known = number;
    }
}
