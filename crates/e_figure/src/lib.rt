//! Figures in whole numbers: which literals of diagrams are true in them, the law that some literal
//! of each instance of a rule is, and what a figure shows not to follow.
#![tactic(auto)]

mod figure;
mod laws;
mod measure;
mod refuting;
mod truth;
mod witness;

pub use figure::{
    Figure, Point, Round, Straight, has_direction, has_inside, is_small_circle, is_small_line,
    is_small_point,
};
pub use laws::{cited_is_true, every_instance_is_true};
pub use refuting::refutes;
pub use truth::holds;
pub use witness::{LawFault, law};
