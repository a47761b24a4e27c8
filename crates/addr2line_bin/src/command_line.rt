//! The words of the command line, read by `clap`.

ghost use Rattle.std.specs.Prelude.{◌≡◌, IfOk, IfErr, codes, map, true, false};
ghost use Rattle.std.specs.Prelude.{string_bytes, option_map};
ghost use Rattle.addr2line_bin.specs.Common.{rows_of, found_of, first_of, all_of, result_map};
ghost use Rattle.addr2line_bin.specs.CommandLine.{asked_compressed, asked_style, is_on, IsAsked, IsFaultOf, IsRequest};
ghost use Rattle.addr2line_bin.specs.CommandLine.{IsUnasked, IsWordFault, WantsMemoryAlone, texts_in};
ghost use Rattle.addr2line_bin.specs.CommandLine.{AreProbes, asked_names, asks_recursion, exe_in, is_complete, named_output, output_of, styled_word};
ghost use Rattle.addr2line_bin.specs.declared.command_line.WordFault.TheVariants as fault;

use crate::command::{HelpTexts, whole_command};
use crate::options::{Options, Probes, Style};
use crate::program_name::program_name;
use addr2line::{CompressedSections, Style as NameStyle};
use clap::ArgMatches;
use clap::error::ErrorKind;
use std::alloc::{AllocError, Global};

/// What the words ask for.
#[derive(Drop)]
pub struct Request {
    /// The path of the file.
    pub exe: String,
    /// The path of its supplementary file, if one is named.
    pub sup: Option<String>,
    /// What becomes of sections of the files that are compressed.
    pub compressed: CompressedSections,
    /// What is asked of the file.
    pub options: Options,
}

/// Why there is no request.
#[derive(Drop)]
pub enum WordFault {
    /// Memory was refused.
    OutOfMemory,
    /// Words that the command doesn't take, or a word that asks for help or the version.
    Clap(clap::Error),
    /// Words that the command takes, and that ask for nothing all the same.
    Misuse(Misuse),
}

/// Why words that the command takes ask for nothing.
#[derive(Clone, Copy, Debug, PartialEq, Eq)]
pub enum Misuse {
    /// `-r` or `-R`, with which other programs set how deep names are read.
    RecursionLimit,
    /// A value of `--output-style` that is no style.
    OutputStyle,
    /// A value of `--demangle` that is no style.
    NameStyle,
    /// No `-e`.
    NoFile,
    /// `--all` beside an address.
    AllAndAddresses,
}

// The styles of texts.
#[derive(Clone, Copy)]
enum OutputStyle {
    // Those of GNU addr2line.
    Gnu,
    // Those of llvm-symbolizer.
    Llvm,
    // An object of JSON for each address.
    Json,
}

impl From<AllocError> for WordFault {
    ghost from_gives = { λ _ e. e ≡ fault.OutOfMemory };

    fn from(_: AllocError) -> WordFault {
        WordFault::OutOfMemory
    }
}

impl From<clap::Error> for WordFault {
    ghost from_gives = { IsFaultOf };

    fn from(error: clap::Error) -> WordFault {
        match error.kind() {
            ErrorKind::OutOfMemory => WordFault::OutOfMemory,
            _ => WordFault::Clap(error),
        }
    }
}

// Whether a switch is on.
#[tactic(auto, using(crate::proofs::CommandLemmas::first_of_matches))]
fn is_on(matches: &ArgMatches<'_>, id: &str) -> bool
    ensures gives { result ≡ is_on id.now (rows_of (found_of matches.now)) }
{
    match matches.get_str(id) {
        Some(text) => text == "true",
        None => false,
    }
}

// The value of an option.
#[tactic(auto, using(crate::proofs::CommandLemmas::first_of_matches))]
fn value_of(alloc: Global, matches: &ArgMatches<'_>, id: &str) -> Result<Option<String>, AllocError>
    ensures gives { IfOk result (λ v. first_of id.now (rows_of (found_of matches.now))
        ≡ option_map string_bytes v) }
{
    match matches.get_str(id) {
        Some(text) => Ok(Some(String::from_str(alloc, text)?)),
        None => Ok(None),
    }
}

// Texts as strings.
fn strings_of(alloc: Global, texts: &[&str]) -> Result<Vec<String>, AllocError>
    ensures gives { IfOk result (λ v. texts_in v.items ≡ map (λ t. t.now) texts.now) }
{
    let mut strings = Vec::new(alloc);
    for text in texts {
        strings.push(String::from_str(alloc, text)?)?;
    }
    Ok(strings)
}

// The style that a name stands for, if there is one.
fn named_output(name: &str) -> Option<OutputStyle>
    ensures gives { result ≡ named_output name.now }
{
    match name {
        "GNU" => Some(OutputStyle::Gnu),
        "LLVM" => Some(OutputStyle::Llvm),
        "JSON" => Some(OutputStyle::Json),
        _ => None,
    }
}

// The style that is asked for, if there is one of that name.
#[tactic(auto, using(crate::proofs::CommandLemmas::first_of_matches))]
fn output_of(matches: &ArgMatches<'_>) -> Option<OutputStyle>
    ensures gives { result ≡ output_of (rows_of (found_of matches.now)) }
{
    match matches.get_str("output-style") {
        Some(name) => named_output(name),
        None if is_on(matches, "llvm") => Some(OutputStyle::Llvm),
        None => Some(OutputStyle::Gnu),
    }
}

// Whether the depth of names is asked for.
fn asks_recursion(matches: &ArgMatches<'_>) -> bool
    ensures gives { result ≡ asks_recursion (rows_of (found_of matches.now)) }
{
    is_on(matches, "recurse-limit") || is_on(matches, "no-recurse-limit")
}

// The path of the file that the matches ask something of, or why they ask for nothing.
#[tactic(auto, using(crate::proofs::CommandLemmas::first_of_matches, crate::proofs::CommandLemmas::all_of_matches), unfolding(crate::specs::CommandLine::exe_in))]
fn exe_of<'a>(matches: &ArgMatches<'a>) -> Result<&'a str, Misuse>
    ensures gives { result_map (λ path. path.now) result ≡ exe_in (rows_of (found_of matches.now)) }
{
    if asks_recursion(matches) {
        return Err(Misuse::RecursionLimit);
    }
    if output_of(matches).is_none() {
        return Err(Misuse::OutputStyle);
    }
    if is_on(matches, "demangle-other") {
        return Err(Misuse::NameStyle);
    }
    let Some(exe) = matches.get_str("exe") else {
        return Err(Misuse::NoFile);
    };
    if is_on(matches, "all") && matches.get_strs("probes").is_some() {
        return Err(Misuse::AllAndAddresses);
    }
    Ok(exe)
}

// Which names are demangled, if any are.
fn names_of(matches: &ArgMatches<'_>) -> Option<NameStyle>
    ensures gives { result ≡ asked_names (rows_of (found_of matches.now)) }
{
    if is_on(matches, "demangle-none") {
        None
    } else if is_on(matches, "demangle-rust") || is_on(matches, "demangle-auto") {
        Some(NameStyle::Rust)
    } else if is_on(matches, "demangle") {
        Some(NameStyle::Legacy)
    } else {
        None
    }
}

// How addresses are printed.
fn style_of(matches: &ArgMatches<'_>) -> Style
    ensures gives { result ≡ asked_style (rows_of (found_of matches.now)) }
{
    let output = output_of(matches);
    Style {
        functions: is_on(matches, "functions"),
        pretty: is_on(matches, "pretty-print"),
        inlines: is_on(matches, "inlines"),
        addresses: is_on(matches, "addresses"),
        basenames: is_on(matches, "basenames"),
        names: names_of(matches),
        llvm: matches!(output, Some(OutputStyle::Llvm)),
        json: matches!(output, Some(OutputStyle::Json)),
    }
}

// What becomes of sections that are compressed.
fn compressed_of(matches: &ArgMatches<'_>) -> CompressedSections
    ensures gives { result ≡ asked_compressed (rows_of (found_of matches.now)) }
{
    if is_on(matches, "decompress") {
        CompressedSections::Decompressed
    } else {
        CompressedSections::Refused
    }
}

// The words that belong to no option, if there are any.
#[tactic(auto, using(crate::proofs::CommandLemmas::all_of_matches))]
fn words_of(alloc: Global, matches: &ArgMatches<'_>) -> Result<Option<Vec<String>>, AllocError>
    ensures gives { IfOk result (λ v. all_of (codes "probes") (rows_of (found_of matches.now))
        ≡ option_map (λ (w : _). texts_in w.items) v) }
{
    match matches.get_strs("probes") {
        Some(texts) => Ok(Some(strings_of(alloc, texts)?)),
        None => Ok(None),
    }
}

// The addresses that are asked for, where the matches ask for something.
#[tactic(auto, using(crate::proofs::CommandLemmas::all_alone))]
fn probes_of(alloc: Global, matches: &ArgMatches<'_>) -> Result<Probes, AllocError>
    requires used { is_complete (rows_of (found_of matches.now)) ≡ true }
    ensures gives { IfOk result (AreProbes (rows_of (found_of matches.now))) }
{
    match words_of(alloc, matches)? {
        Some(words) => Ok(Probes::Words(words)),
        None if is_on(matches, "all") => Ok(Probes::All),
        None => Ok(Probes::Lines),
    }
}

// What the matches ask for, by a program of this name.
fn request_of(alloc: Global, name: String, matches: &ArgMatches<'_>) -> Result<Request, WordFault>
    ensures gives { IfOk result (IsAsked (rows_of (found_of matches.now))) }
    ensures kept { IfOk result (λ r. r.options.name ≡ name) }
    ensures refused { IfErr result (IsUnasked (rows_of (found_of matches.now))) }
{
    let exe = match exe_of(matches) {
        Ok(exe) => String::from_str(alloc, exe)?,
        Err(why) => return Err(WordFault::Misuse(why)),
    };
    let probes = probes_of(alloc, matches)?;
    let sup = value_of(alloc, matches, "sup")?;
    let section = value_of(alloc, matches, "section")?;
    let options = Options {
        name,
        section,
        probes,
        style: style_of(matches),
    };
    Ok(Request {
        exe,
        sup,
        compressed: compressed_of(matches),
        options,
    })
}

// A word, in whose place one stands that the command takes, where it names a style of names.
fn styled_word(word: &str) -> &str
    ensures gives { result.now ≡ styled_word word.now }
{
    match word {
        "--demangle=none" => "--demangle-none",
        "--demangle=rust" => "--demangle-rust",
        "--demangle=auto" => "--demangle-auto",
        _ if word.starts_with("--demangle=") => "--demangle-other",
        _ => word,
    }
}

// Words, with such ones in their place.
fn styled_words<'a>(alloc: Global, words: &'a [String]) -> Result<Vec<&'a str>, AllocError>
    ensures gives { IfOk result (λ v. map (λ t. t.now) v.items
        ≡ map styled_word (texts_in words.now)) }
{
    let mut styled = Vec::new(alloc);
    for word in words {
        styled.push(styled_word(word.as_str()))?;
    }
    Ok(styled)
}

/// What the words of a command line ask for.
///
/// Word 0 names the program: `Options::name` is its last part as a path, `addr2line` where it has
/// none. The others are options and addresses in any order; after `--` all are addresses. With
/// neither `--all` nor an address the probes are lines.
///
/// | Refused | When |
/// |---|---|
/// | `Clap` | the command doesn't take the words, or one asks for help or the version |
/// | `Misuse` | it takes them, but they ask for nothing, as where no `-e` stands |
/// | `OutOfMemory` | memory was refused, in place of any answer |
///
/// Source: Own.
pub fn command_line(alloc: Global, words: &[String]) -> Result<Request, WordFault>
    ensures gives { IfOk result (IsRequest words.now) }
    ensures refused { IfErr result (IsWordFault (texts_in words.now)) }
    ensures memory { IfErr result (WantsMemoryAlone (texts_in words.now)) }
{
    let name = String::from_str(alloc, program_name(words))?;
    let texts = HelpTexts::new(alloc, name.as_str())?;
    let command = whole_command(alloc, name.as_str(), &texts)?;
    let styled = styled_words(alloc, words)?;
    let matches = command.try_get_matches_from(styled.as_slice())?;
    request_of(alloc, name, &matches)
}
