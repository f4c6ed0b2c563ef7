//! A page of a list of objects.
ghost use Rattle.std.specs.Prelude.{◌≡◌};
ghost use Rattle.std.specs.Option.{option_copied};

use s3_names::Key;
use s3_prefixes::Text;
use s3_versions::Facts;
use std::marker::Model;

/// An object in a list.
#[derive(Drop)]
pub struct ListedObject {
    pub key: Key,
    /// What is known of its current version.
    pub facts: Facts,
}

/// A page of a list of objects: the objects and the common prefixes, each in the order of bytes, and the text of the last
/// item, behind which the next page goes on, where there is one.
#[derive(Drop)]
pub struct ObjectPage {
    pub(crate) contents: Vec<ListedObject>,
    pub(crate) prefixes: Vec<Text>,
    pub(crate) next: Option<Text>,
}

impl Model for ObjectPage {
    ghost use Rattle.s3_listings.specs.Objects.{ObjectsTold};

    ghost Value = { ObjectsTold };

    ghost view = { λ page. record { contents = page.contents.items; prefixes = page.prefixes.items; next = page.next } };
}

impl ObjectPage {
    /// The objects.
    pub fn contents(&self) -> &[ListedObject]
        ensures { result.now ≡ self.now.contents }
    {
        self.contents.as_slice()
    }

    /// The common prefixes.
    pub fn prefixes(&self) -> &[Text]
        ensures { result.now ≡ self.now.prefixes }
    {
        self.prefixes.as_slice()
    }

    /// The text of the last item, where more are left.
    pub fn next(&self) -> Option<&Text>
        ensures { option_copied result ≡ self.now.next }
    {
        self.next.as_ref()
    }
}
