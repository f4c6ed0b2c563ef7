//! A page of a list of rows.
ghost use Rattle.std.specs.Prelude.{◌≡◌, ◌<◌, ◌+◌, List, [], false, take};
ghost use Rattle.std.specs.Option.{option_copied};
ghost use Rattle.s3_listings.specs.Pages.{next_of, page_of};

use s3_uploads::PartRow;
use std::alloc::Global;
use std::marker::Model;

/// A page of a list: its rows in their order, and whether more are left.
#[derive(Drop)]
pub struct ListPage<R> {
    pub(crate) rows: Vec<R>,
    pub(crate) is_truncated: bool,
}

/// A page of a list of an upload's parts, by their numbers.
pub type PartPage = ListPage<PartRow>;

impl<R> Model for ListPage<R> {
    ghost use Rattle.s3_listings.specs.Pages.{Page};

    ghost Value = { Page R };

    ghost view = { λ page. record { given = page.rows.items; is_truncated = page.is_truncated } };
}

impl<R: Drop> ListPage<R> {
    // A page without rows.
    pub(crate) fn empty(alloc: Global) -> ListPage<R>
        ensures { result ≡ record { given = []; is_truncated = false } }
    {
        ListPage {
            rows: Vec::new(alloc),
            is_truncated: false,
        }
    }

    // The page of all rows, of which these are the first ones, one more than a page has at most.
    pub(crate) fn of(mut rows: Vec<R>, most: usize) -> ListPage<R>
        requires { 0 < most }
        ensures { (all : List R) → rows.items ≡ take (most + 1) all → result ≡ page_of most all }
    {
        let is_truncated = most < rows.len();
        rows.truncate(most);
        ListPage { rows, is_truncated }
    }

    /// The rows.
    pub fn rows(&self) -> &[R]
        ensures { result.now ≡ self.now.given }
    {
        self.rows.as_slice()
    }

    /// Whether more are left behind the last one.
    pub fn is_truncated(&self) -> bool
        ensures { result ≡ self.now.is_truncated }
    {
        self.is_truncated
    }

    /// The row behind which the next page goes on, where more are left.
    #[tactic(auto, using(crate::proofs::ListPageLemmas::last_is))]
    pub fn next(&self) -> Option<&R>
        ensures { option_copied result ≡ next_of self.now }
    {
        if self.is_truncated {
            self.rows.last()
        } else {
            None
        }
    }
}
