//! A page of a list whose rows stand by key, of which some may be told by their common prefixes.
ghost use Rattle.std.specs.Prelude.{◌≡◌, filter_map, is_some, IfOk};
ghost use Rattle.std.specs.Option.{option_copied};
ghost use Rattle.s3_listings.specs.Rolled.{ends_in_prefix, next_prefix, next_row, plainly, prefix_in, row_in, rows_told};

use crate::ListPage;
use s3_prefixes::Text;
use s3_records::{UploadRow, VersionRow};
use s3_terms::NoMemory;
use std::alloc::Global;
use std::marker::Model;

/// An item of such a list: a row, or what the keys of several have in common.
#[derive(Drop)]
pub enum RowItem<R> {
    Row(R),
    CommonPrefix(Text),
}

/// A page of such a list: its rows and its common prefixes, each in their order, and the item behind which the next page goes on,
/// where more are left.
#[derive(Drop)]
pub struct RowPage<R> {
    rows: Vec<R>,
    prefixes: Vec<Text>,
    // Whether the last item is a common prefix.
    ends_in_prefix: bool,
    is_truncated: bool,
}

/// A page of a list of versions, by key in the order of bytes, the newest version of a key first.
pub type VersionPage = RowPage<VersionRow>;

/// A page of a list of uploads, by key in the order of bytes, and of one key by their ids.
pub type UploadPage = RowPage<UploadRow>;

impl<R> Model for RowPage<R> {
    ghost use Rattle.s3_listings.specs.Rolled.{RowsTold, told_so};

    ghost Value = { RowsTold R };

    ghost view = { λ page. told_so page.is_truncated page.ends_in_prefix page.rows.items page.prefixes.items };
}

impl<R: Drop> RowPage<R> {
    // The page of rows alone.
    pub(crate) fn plain(alloc: Global, page: ListPage<R>) -> RowPage<R>
        ensures { result ≡ plainly page }
    {
        let ListPage { rows, is_truncated } = page;
        RowPage {
            rows,
            prefixes: Vec::new(alloc),
            ends_in_prefix: false,
            is_truncated,
        }
    }

    // The page of items.
    pub(crate) fn of(alloc: Global, page: ListPage<RowItem<R>>) -> Result<RowPage<R>, NoMemory>
        ensures { IfOk result (λ told. told ≡ rows_told page) }
    {
        let ListPage {
            rows: items,
            is_truncated,
        } = page;
        let ends_in_prefix = ends_in_prefix(&items);
        let (rows, prefixes) = parted(alloc, items)?;
        Ok(RowPage {
            rows,
            prefixes,
            ends_in_prefix,
            is_truncated,
        })
    }

    /// The rows.
    pub fn rows(&self) -> &[R]
        ensures { result.now ≡ self.now.rows }
    {
        self.rows.as_slice()
    }

    /// The common prefixes.
    pub fn prefixes(&self) -> &[Text]
        ensures { result.now ≡ self.now.prefixes }
    {
        self.prefixes.as_slice()
    }

    /// The row behind which the next page goes on, where it does behind one.
    #[tactic(auto, using(crate::proofs::ListPageLemmas::last_is))]
    pub fn next_row(&self) -> Option<&R>
        ensures { option_copied result ≡ next_row self.now }
    {
        if !self.is_truncated || self.ends_in_prefix {
            return None;
        }
        self.rows.last()
    }

    /// The common prefix behind which it does, where it does behind one.
    #[tactic(auto, using(crate::proofs::ListPageLemmas::last_is))]
    pub fn next_prefix(&self) -> Option<&Text>
        ensures { option_copied result ≡ next_prefix self.now }
    {
        if !self.is_truncated || !self.ends_in_prefix {
            return None;
        }
        self.prefixes.last()
    }

    /// Whether more items are left.
    pub fn is_truncated(&self) -> bool
        ensures { result ≡ is_some self.now.next }
    {
        self.next_row().is_some() || self.next_prefix().is_some()
    }
}

// Whether the last item is a common prefix.
#[tactic(auto, using(crate::proofs::ListPageLemmas::last_is))]
fn ends_in_prefix<R>(items: &[RowItem<R>]) -> bool
    ensures { result ≡ ends_in_prefix items.now }
{
    matches!(items.last(), Some(RowItem::CommonPrefix(_)))
}

// The rows and the common prefixes among items.
fn parted<R: Drop>(alloc: Global, items: Vec<RowItem<R>>) -> Result<(Vec<R>, Vec<Text>), NoMemory>
    ensures { IfOk result (λ parts. (parts.0.items ≡ filter_map row_in items.items) × (parts.1.items ≡ filter_map prefix_in items.items)) }
{
    let mut rows = Vec::new(alloc);
    let mut prefixes = Vec::new(alloc);
    for item in items {
        match item {
            RowItem::Row(row) => rows.push(row)?,
            RowItem::CommonPrefix(prefix) => prefixes.push(prefix)?,
        }
    }
    Ok((rows, prefixes))
}
