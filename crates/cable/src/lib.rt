// Cables between two boards, behind one interface.
#![tactic(auto)]

mod both_ways;
pub mod delaying;
pub mod direction;
pub mod disturbed;
pub mod interface;
pub mod line;
pub mod passing;
pub mod straight;
pub mod track;
