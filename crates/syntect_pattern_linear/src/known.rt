//! What is known of the cells at a place, where anything is.
ghost use Rattle.std.specs.Prelude.{◌≡◌, IfOk, None, replicate, slice_index_or, slice_set};

use std::alloc::{AllocError, Global};

/// Nothing is known of so many cells.
pub fn nothing_known<T: Copy>(alloc: Global, count: usize) -> Result<Vec<Option<T>>, AllocError>
    ensures { IfOk result (λ known. known.items ≡ replicate count None) }
{
    let mut known = Vec::with_capacity(alloc, count)?;
    for _cell in 0..count {
        known.push(None)?;
    }
    Ok(known)
}

/// What is known of the cell.
#[inline]
pub fn known_at<T: Copy>(known: &[Option<T>], cell: usize) -> Option<T>
    ensures { result ≡ slice_index_or known.now cell None }
{
    match known.get(cell) {
        Some(known) => *known,
        None => None,
    }
}

/// Keeps what is known of the cell.
#[inline]
pub fn keep<T: Copy>(known: &mut Vec<Option<T>>, cell: usize, value: Option<T>)
    ensures { known.new.items ≡ slice_set known.old.items cell value }
{
    if cell < known.len() {
        known[cell] = value;
    }
}
