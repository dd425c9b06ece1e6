//! Graphs of local positions: all positions that local play in a region can reach, and an order of them with ends first,
//! or a cycle. Or, also where there is a cycle, which moves return, and an order for each colour without its captures that do.
#![tactic(auto)]

mod breadth;
mod compact_graph;
mod components;
mod cycle;
mod edge_lists;
mod edges;
mod graph;
mod graph_build;
mod laws;
mod limits;
mod narrow;
mod numbers;
mod place_table;
mod return_graph;
mod return_orders;
mod search;
mod short_edge;
mod soonest_cycles;
mod strong_components;
mod walk;

pub use compact_graph::CompactGraph;
pub use cycle::{CycleList, CycleMove};
pub use edges::{EdgeList, Edges};
pub use graph::{Edge, Graph, MOST_POSITIONS};
pub use graph_build::{GraphError, build, build_compact};
pub use laws::{cycles_take_both_ways, finite_local_play};
pub use limits::limit_laws;
pub use return_graph::{ReturnGraph, build_with_returns};
