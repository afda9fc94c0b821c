//! Where a marker stands in a text, and what stands before and after it.
//!
//! Each function works on any text: a count past the end gives all, or nothing. So callers need
//! no proof that a part is long enough, and a short one fails where its content is tested.
ghost use Rattle.std.specs.Prelude.{◌≡◌, ◌≤◌, ◌<◌, [], ◌∷◌, length, take, drop, nat_eq, slice_index_or};
ghost use Rattle.std.specs.Cmp.Lexicographic.{pointwise};
ghost use Rattle.ftp_list.specs.Places.{begins, place, holds, before, behind};

/// The first characters, at most so many.
pub fn front(text: &[char], count: usize) -> &[char]
    ensures { result.now ≡ take count text.now }
{
    if count < text.len() {
        &text[..count]
    } else {
        text
    }
}

/// The text without its first characters.
pub fn rest(text: &[char], count: usize) -> &[char]
    ensures { result.now ≡ drop count text.now }
{
    if count < text.len() {
        &text[count..]
    } else {
        &text[text.len()..]
    }
}

/// Whether the texts are equal.
pub fn is_same(text: &[char], word: &[char]) -> bool
    ensures { result ≡ pointwise nat_eq text.now word.now }
{
    text == word
}

/// Whether the text begins with the marker.
pub fn begins_with(text: &[char], marker: &[char]) -> bool
    ensures { result ≡ begins marker.now text.now }
{
    text.starts_with(marker)
}

/// The first place where the marker stands, or the text's length.
pub fn place_of(text: &[char], marker: &[char]) -> usize
    ensures value { result ≡ place marker.now text.now }
    ensures bound { result ≤ length text.now }
{
    match marker {
        [] => 0,
        [only] => place_of_one(text, *only),
        [first, ..] => place_of_many(text, *first, marker),
    }
}

#[tactic(auto, using(crate::proofs::PlaceFacts::one_passed, crate::proofs::PlaceFacts::one_found, crate::proofs::PlaceFacts::place_end))]
fn place_of_one(text: &[char], only: char) -> usize
    ensures value { result ≡ place (only ∷ []) text.now }
    ensures bound { result ≤ length text.now }
{
    for (i, c) in text.iter().enumerate() {
        if *c == only {
            return i;
        }
    }
    text.len()
}

#[tactic(auto, using(crate::proofs::PlaceFacts::place_passed, crate::proofs::PlaceFacts::place_found, crate::proofs::PlaceFacts::place_end))]
fn place_of_many(text: &[char], first: char, marker: &[char]) -> usize
    requires some { 0 < length marker.now }
    requires head { first ≡ slice_index_or marker.now 0 first }
    ensures value { result ≡ place marker.now text.now }
    ensures bound { result ≤ length text.now }
{
    for i in 0..text.len() {
        if begins_there(text, i, first, marker) {
            return i;
        }
    }
    text.len()
}

#[inline(always)]
#[tactic(auto, using(crate::proofs::PlaceFacts::other_first))]
fn begins_there(text: &[char], i: usize, first: char, marker: &[char]) -> bool
    requires within { i < length text.now }
    requires some { 0 < length marker.now }
    requires head { first ≡ slice_index_or marker.now 0 first }
    ensures { result ≡ begins marker.now (drop i text.now) }
{
    // Most places differ in the first character already.
    if text[i] != first {
        return false;
    }
    begins_with(rest(text, i), marker)
}

/// Whether the marker stands in the text.
pub fn has(text: &[char], marker: &[char]) -> bool
    ensures { result ≡ holds marker.now text.now }
{
    place_of(text, marker) < text.len()
}

/// What stands before the first marker, or all.
pub fn part_before<'a>(text: &'a [char], marker: &[char]) -> &'a [char]
    ensures { result.now ≡ before marker.now text.now }
{
    front(text, place_of(text, marker))
}

/// What stands after the first marker, or nothing.
pub fn part_behind<'a>(text: &'a [char], marker: &[char]) -> &'a [char]
    ensures { result.now ≡ behind marker.now text.now }
{
    rest(rest(text, place_of(text, marker)), marker.len())
}
