//! Copies that are made a few times over, each shown by whether it equals what it is made of.
use std::alloc::AllocError;
use syntect_check_calls::marks::{TIMES, answer, begin, end};

/// Shows whether a copy equals its first.
pub fn show_copy<T: PartialEq + Drop>(rt: &impl Print, copy: &Result<T, AllocError>, first: &T) {
    match copy {
        Ok(copy) => answer(rt, *copy == *first),
        Err(e) => answer(rt, e),
    }
}

/// Copies a value again and again.
pub fn copy<T: Clone + PartialEq>(rt: &impl Print, first: &T) {
    for _ in 0..TIMES {
        begin(rt);
        let copy: Result<T, AllocError> = first.clone();
        end(rt);
        show_copy(rt, &copy, first);
    }
}
