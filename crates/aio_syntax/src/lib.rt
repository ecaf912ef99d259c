//! Expressions of scripts, as code holds them. Contracts see them as plain data.
#![tactic(auto)]

mod constant;
mod expr;
mod spelling;
mod variable_name;

pub use constant::Constant;
pub use expr::{Expr, ExprCase, ExprList, ExprListOver, ExprOver};
pub use model_tree::{Comparison, Function, Operator, RequestName};
pub use model_value::Kind;
pub use spelling::{function_of, name_of_function, name_of_request, request_of};
pub use variable_name::VariableName;
