//! What is asked of the program.

use addr2line::{Range, Style as NameStyle};
use std::alloc::Global;

/// The addresses that are asked for.
#[derive(Drop)]
pub enum Probes {
    /// Each address of a row, in rising order.
    All,
    /// These words.
    Words(Vec<String>),
    /// The lines of standard input.
    Lines,
}

/// What is asked, and how it is printed.
#[derive(Drop)]
pub struct Options {
    /// What the program calls itself.
    pub name: String,
    /// The section that addresses are offsets in, if one is named.
    pub section: Option<String>,
    /// The addresses that are asked for.
    pub probes: Probes,
    /// How addresses are printed.
    pub style: Style,
}

/// How addresses are printed.
#[derive(Clone, Copy)]
pub struct Style {
    /// Whether functions are printed.
    pub functions: bool,
    /// Whether a function and its location stand on one line.
    pub pretty: bool,
    /// Whether inlined functions are printed.
    pub inlines: bool,
    /// Whether addresses are printed.
    pub addresses: bool,
    /// Whether only the last part of a path is printed.
    pub basenames: bool,
    /// Which names are demangled, if any are.
    pub names: Option<NameStyle>,
    /// Whether the texts are LLVM's.
    pub llvm: bool,
    /// Whether each address is an object of JSON.
    pub json: bool,
}

/// What is the same for each address of a run.
#[derive(Clone, Copy)]
pub struct RunContext<'a> {
    /// Where memory comes from.
    pub alloc: Global,
    /// What the program calls itself.
    pub name: &'a str,
    /// How addresses are printed.
    pub style: Style,
    /// The section that addresses are offsets in, if one is named.
    pub section: Option<Range>,
}
