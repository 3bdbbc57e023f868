// The numbers of a serial line between two TMS 9902A.
#![tactic(auto)]

pub mod calls;
pub mod counts;
pub mod ones;
pub mod registers;
