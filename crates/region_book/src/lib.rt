//! Shapes of local positions: two positions have equal shapes exactly where one is the other turned, mirrored or with its
//! colours exchanged.
#![tactic(auto)]

mod images;
mod laws;
mod shape_of_region;
mod shapes;
mod spots;
mod symmetry;

pub use laws::one_shape;
pub use shape_of_region::shape;
pub use shapes::{Shape, Turn};
