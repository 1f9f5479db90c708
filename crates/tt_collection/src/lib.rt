//! Font collections: the faces that are in a file, each as the font file that it is (OpenType
//! specification, "Font Collections").
#![tactic(auto)]

mod collection;
mod directory;
mod fault;
mod laws;

pub use collection::{Collection, is_collection};
pub use fault::CollectionFault;
pub use laws::faces_are_font_files;
