//! What is told, against a text.
use std::alloc::{AllocError, Global};
use std::fmt;

/// Whether something is told by a text.
pub fn is_told<T: fmt::Display>(alloc: Global, told: &T, text: &str) -> Result<bool, AllocError> {
    let found = format!(in alloc; "{told}")?;
    Ok(found.as_str() == text)
}
