// What is asked of a table: a report, the backlog, where a partition fits. A query takes no memory and changes nothing.
#![tactic(auto)]

mod backlog_query;
mod extent_list;
mod fit_query;
mod reported;
mod reporting;

pub use backlog_query::backlog;
pub use fit_query::fit;
pub use reported::Report;
pub use reporting::report;
