//! Boards, points, chains and liberties.
#![tactic(auto)]

mod boards;
mod chains;
mod declared_points;
mod fills;
mod grid;
mod limits;
mod names;
mod near_points;
mod parts;
mod points;
mod region;
mod sets;

pub use boards::Board;
pub use fills::{adjoin, fill, fill_all, part_touches, touches};
pub use grid::{Cell, Colour, MOST_POINTS, Point, Size};
pub use limits::limit_laws;
pub use names::{name, point_of};
pub use near_points::{Near, NearPoints, neighbours};
pub use parts::{Labels, components, label_of};
pub use points::Points;
pub use region::{Region, Touch};
pub use sets::edge;
