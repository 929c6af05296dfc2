//! The words of faults.

use std::alloc::{AllocError, Global};
use std::fmt::Display;

/// Whether these are the words of a fault.
pub fn is_worded<T: Display>(alloc: Global, fault: &T, words: &str) -> bool {
    match format!(in alloc; "{fault}") {
        Ok(reported) => reported.as_str() == words,
        Err(AllocError) => false,
    }
}
