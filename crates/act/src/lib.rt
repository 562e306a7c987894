// What was read, acted out on the one site that it names: the refusals in the table's order, then the rule.
#![tactic(auto)]

mod acts;

pub use acts::act;
