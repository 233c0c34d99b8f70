//! Pieces that are cut at a byte.
ghost use Rattle.std.specs.Prelude.{◌≡◌, ◌≤◌, ◌++◌, ◌∷◌, [], ℕ, length, take, drop, IfOk, OnOk};
ghost use Rattle.syntect_style.specs.Cut.{plain, whole, others, bytes_left, CutsFirst, cut_front, cut_back, IsCut, IsParted, IsModified};

use std::alloc::{AllocError, Global};
use std::ops::Range;
use syntect_theme::style::{Style, StyleModifier};

/// Appends a piece of a copied attribute.
fn push_piece<'a, A: Clone + Drop>(
    out: &mut Vec<(A, &'a str)>,
    attribute: &A,
    text: &'a str,
) -> Result<(), AllocError>
    requires { (x y : A) → A.is_clone x y → y ≡ x }
    ensures { OnOk result (plain out.new.items ≡ plain out.old.items
        ++ (attribute.now, text.now) ∷ []) }
{
    out.push((attribute.clone()?, text))?;
    Ok(())
}

/// Puts pieces last.
fn push_all<'a, A: Clone + Drop>(
    out: &mut Vec<(A, &'a str)>,
    pieces: &[(A, &'a str)],
) -> Result<(), AllocError>
    requires { (x y : A) → A.is_clone x y → y ≡ x }
    ensures { OnOk result (plain out.new.items ≡ plain out.old.items ++ plain pieces.now) }
{
    for piece in pieces {
        push_piece(out, &piece.0, piece.1)?;
    }
    Ok(())
}

/// How many pieces lie in the first so many bytes as a whole, and how many of the bytes are left
/// after them.
fn whole_pieces<A>(v: &[(A, &str)], split_i: usize) -> (usize, usize)
    ensures within { result.0 ≤ length v.now }
    ensures whole { take result.0 (plain v.now) ≡ whole split_i (plain v.now) }
    ensures others { drop result.0 (plain v.now) ≡ others split_i (plain v.now) }
    ensures left { result.1 ≡ bytes_left split_i (plain v.now) }
{
    let mut left = split_i;
    for (i, piece) in v.iter().enumerate() {
        let len = piece.1.len();
        if len > left {
            return (i, left);
        }
        left -= len;
    }
    (v.len(), left)
}

/// Cuts the first of pieces where bytes are left, and puts its front last. Answers the rest.
fn cut_first<'a, A: Clone + Drop>(
    alloc: Global,
    before: &mut Vec<(A, &'a str)>,
    left: usize,
    rest: &[(A, &'a str)],
) -> Result<Vec<(A, &'a str)>, AllocError>
    requires { (x y : A) → A.is_clone x y → y ≡ x }
    ensures { IfOk result (λ after. (front : ℕ) × CutsFirst front left (plain rest.now)
        × (plain before.new.items ≡ plain before.old.items ++ cut_front front left (plain rest.now))
        × (plain after.items ≡ cut_back front left (plain rest.now))) }
{
    let mut after = Vec::new(alloc);
    if left == 0 {
        push_all(&mut after, rest)?;
        return Ok(after);
    }
    let Some((piece, others)) = rest.split_first() else {
        return Ok(after);
    };
    let (front, back) = piece.1.split_at(piece.1.floor_char_boundary(left));
    push_piece(before, &piece.0, front)?;
    push_piece(&mut after, &piece.0, back)?;
    push_all(&mut after, others)?;
    Ok(after)
}

/// Cuts pieces at a byte position of their text: the first part has as many whole pieces as fit,
/// and of the next one the longest front of whole characters; the second part has the rest. Nothing
/// is cut where the position is the end of a piece. So both parts join to the text, each byte keeps
/// its attribute, and the text of the first part is the longest front of whole characters that
/// fits. Each attribute's clone has to be equal to it.
pub fn split_at<'a, A: Clone + Drop>(
    alloc: Global,
    v: &[(A, &'a str)],
    split_i: usize,
) -> Result<(Vec<(A, &'a str)>, Vec<(A, &'a str)>), AllocError>
    requires { (x y : A) → A.is_clone x y → y ≡ x }
    ensures cut { IfOk result (λ r. IsCut split_i (plain v.now)
        (plain r.0.items) (plain r.1.items)) }
    ensures parted { IfOk result (λ r. IsParted split_i (plain v.now)
        (plain r.0.items) (plain r.1.items)) }
{
    let (count, left) = whole_pieces(v, split_i);
    let (front, rest) = v.split_at(count);
    let mut before = Vec::new(alloc);
    push_all(&mut before, front)?;
    let after = cut_first(alloc, &mut before, left, rest)?;
    Ok((before, after))
}

/// Changes the styles of pieces between two byte positions of their text: they are cut at the
/// first, and what is after it is cut at as many bytes more.
pub fn modify_range<'a>(
    alloc: Global,
    v: &[(Style, &'a str)],
    r: Range<usize>,
    modifier: StyleModifier,
) -> Result<Vec<(Style, &'a str)>, AllocError>
    requires { r.start ≤ r.end }
    ensures { IfOk result (λ w. IsModified r.start r.end modifier (plain v.now) (plain w.items)) }
{
    let (mut out, behind) = split_at(alloc, v, r.start)?;
    let (inside, after) = split_at(alloc, behind.as_slice(), r.end - r.start)?;
    for (style, text) in &inside {
        out.push((style.apply(modifier), *text))?;
    }
    push_all(&mut out, after.as_slice())?;
    Ok(out)
}
