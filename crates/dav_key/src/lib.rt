//! Keys of resources, each as one shared text.
#![tactic(auto)]

mod builder;
mod flat_key;
mod segments;
mod text;

pub use builder::KeyBuilder;
pub use flat_key::FlatKey;
pub use segments::Segments;
pub use text::is_flat_segment;
