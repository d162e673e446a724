//! The knowledge that an edge of a conditional jump gives of its operands: their ranges along it, or that the edge is
//! never followed.
#![tactic(auto)]

pub use laws::{
    one_value_each_decides, operands_along_an_edge_stay, ranges_along_an_edge_are_inside,
    ranges_along_an_edge_are_least,
};
pub use refinement::{refine32, refine64};

mod laws;
mod refinement;
mod table;
