// Settlement price capture: terms, prints, the candidates of a series, and the decision.
pub mod decide;
pub mod mean;
pub mod params;
pub mod print;
pub mod state;
pub mod take;
