//! An element that ended.

/// An element that ended: how many elements were open with it, the root's level being 1; its name without a prefix, as a part of
/// the document; and its text, which is empty where an element stands in it.
#[derive(Drop)]
pub struct Element<'a> {
    pub level: usize,
    pub name: &'a [u8],
    pub content: Vec<u8>,
}
