// One site's step: 17 asked of the member and its site, the order read, the refusals in the table's order, then the rule.
#![tactic(auto)]

mod logs;
mod orders;
mod steps;
mod valid;

pub use steps::site_step;
