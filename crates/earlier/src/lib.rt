// Tables as earlier versions kept them, brought to today's form.
#![tactic(auto)]

mod earlier_table;

pub use earlier_table::upgrade_table;
