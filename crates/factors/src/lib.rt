// Gains that come as plain factors: a table of the linear gain of each tenth of a dB, and the gain of a factor, lent in millionths.
// The sentences quoted in this crate are those of document 02, L3.
#![tactic(auto)]

pub mod convert;
mod refusal;
pub mod table;

// Why a factor has no gain, with the refusal's number: "34, the factor is above 11,220,184". An enum of one variant, since a `None` would
// not say which refusal it is.
#[derive(Clone, Copy)]
pub enum FactorRefusal {
    FactorTooHigh = 34,
}
