//! Worked cases, by what they show.

mod codes;
mod context;
mod cuts;
mod deep;
mod example;
mod large_tables;
mod lines;
mod location_ranges;
mod lookups;
mod many_waiting;
mod names;
mod recorded;
mod refused_growths;
mod replies;
mod sections;
mod session;
mod split_units;
mod told;
mod units;
