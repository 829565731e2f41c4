// What every layer needs: addresses and locations, how a partition is divided, whether a number is in its range, and why a call is
// refused.
#![tactic(auto)]

mod layout;
mod places;
mod ranges;
mod refusals;

pub use layout::Layout;
pub use places::{Address, Location};
pub use ranges::is_one_to;
pub use refusals::Refusal;
