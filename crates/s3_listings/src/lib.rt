//! Lists of what is in a bucket, page by page: which objects and common prefixes, which versions and which uploads a
//! page has, and where the next one goes on; and the same of an upload's parts. What a list is stands in
//! `specs/Objects.antt`, `Versions`, `Uploads` and `Parts`, and what users may rely on in `specs/Laws.antt`.
#![tactic(auto)]

mod asked;
mod draft;
mod laws;
mod list_page;
mod object_page;
mod objects;
mod parts;
mod places;
mod rolled;
mod row_page;
mod sought;
mod uploads;
mod versions;

pub use asked::{PartsAsked, UploadsAsked, VersionsAsked};
pub use laws::{
    items_are_distinct, listed_keys_are_read, pages_join, part_pages_join, plain_lists_are_rows,
    rows_are_told_once, upload_pages_join, version_pages_join,
};
pub use list_page::{ListPage, PartPage};
pub use object_page::{ListedObject, ObjectPage};
pub use objects::list_objects;
pub use parts::list_parts;
pub use row_page::{RowItem, RowPage, UploadPage, VersionPage};
pub use uploads::list_uploads;
pub use versions::list_versions;
