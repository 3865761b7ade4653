//! Bodies of natural loops: the nodes from which a loop's header is reached within the loop's extent (Aho, Lam, Sethi and
//! Ullman, Compilers, section 9.6). They are found backwards from the header, over the edges into the body's nodes alone;
//! those of many loops 64 at once.

mod bits;
mod body;
mod edges;
mod entries;
mod extent;
mod groups;
mod inside;
mod span;
mod sweep;
mod visit;

pub use bits::has_bit;
pub use body::BodySearch;
pub use entries::lesser_pair;
pub use extent::{LoopExtent, NodeRange};
pub use groups::GroupBodies;
