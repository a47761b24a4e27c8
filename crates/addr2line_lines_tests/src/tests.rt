//! Worked cases, by what they show.

mod details;
mod files;
mod frames;
mod functions;
mod inlined;
mod line_ranges;
mod names;
mod range_attributes;
mod refused_growths;
mod unit_index;
mod unit_lines;
