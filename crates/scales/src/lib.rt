// Mark scales: the trait, the three scales of the engine, and the pair of any two.
#![tactic(auto)]

mod pair;
mod pairs;
mod scale;
mod score;
mod scores;
#[cfg(test)]
mod tests;
mod three_way;
mod yes_no;

pub use pair::Pair;
pub use scale::Scale;
pub use score::Score;
pub use three_way::ThreeWay;
pub use yes_no::YesNo;
