// From value sets to the box that stands for them.
#![tactic(auto)]

mod boxing;
mod laws;
mod tables;

pub use boxing::box_of;
pub use laws::{
    a_fit_inside_meets_the_box, equal_boxes_agree_on_fits, sets_have_one_box,
    without_a_fit_inside_none_meets_the_box,
};
pub use tables::universal;
