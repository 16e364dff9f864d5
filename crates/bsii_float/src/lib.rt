// Floats: their bits, the whole numbers among them, a placement's sums.
#![tactic(auto)]

pub mod floats;
pub mod placement;
pub mod whole;
