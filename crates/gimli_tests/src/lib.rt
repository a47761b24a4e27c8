//! Worked cases of units, their entries, strings and range lists, over both readers and both byte
//! orders.
#![tactic(auto)]

#[cfg(test)]
mod files;
#[cfg(test)]
mod ranges;
#[cfg(test)]
mod tests;
#[cfg(test)]
mod vectors;
