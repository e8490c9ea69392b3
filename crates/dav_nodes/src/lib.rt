//! Values by the keys of resources, as a tree of nodes that have numbers.
#![tactic(auto)]

mod changes;
mod links;
mod lookup;
mod members;
mod memo;
mod node;
mod nodes;
mod noted;
mod place;

pub use changes::Changes;
pub use members::Members;
pub use nodes::{Nodes, NumberedValue, PlacedValue, RowsError};
pub use noted::NotedNodes;
