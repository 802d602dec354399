// Reads the arc expressions of a net file.
#![tactic(auto)]

mod expression;
mod operator;

pub use expression::read_expression;
pub use operator::Operator;
