//! Tests of the public calls of `elf`.
#![tactic(auto)]

#[cfg(test)]
mod answers;
#[cfg(test)]
mod compressed;
#[cfg(test)]
mod damage;
#[cfg(test)]
mod growths;
#[cfg(test)]
mod parts;
#[cfg(test)]
mod sections;
#[cfg(test)]
mod symbols;
#[cfg(test)]
mod tables;
#[cfg(test)]
mod texts;
