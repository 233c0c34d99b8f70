//! Indentation and comments, by scope.
pub use crate::below::metadata::error::MetadataError;
pub use crate::below::metadata::items::MetadataItems;
pub use crate::below::metadata::metadata::Metadata;
pub use crate::below::metadata::raw::{LoadMetadata, RawMetadataEntry};
pub use crate::below::metadata::scoped::ScopedMetadata;
pub use crate::below::metadata::set::MetadataSet;
