//! Words that files have in place of words of the command line.

ghost use Rattle.std.specs.Prelude.{◌≡◌, ◌++◌, IfOk, IfSome, None, Ok, OnOk, false, is_some, string_bytes};
ghost use Rattle.std.specs.Prelude.{◌∷◌, [], flat_map, option_map};
ghost use Rattle.std.specs.Option.{option_map_or};
ghost use Rattle.std.specs.List.{list_any};
ghost use Rattle.addr2line_bin.specs.CommandLine.{texts_in};
ghost use Rattle.addr2line_bin.specs.ResponseFiles.{expanded, has_response, is_quote, is_response, is_space};
ghost use Rattle.addr2line_bin.specs.ResponseFiles.{nothing_read, response_path, text_in, with_character, with_end};
ghost use Rattle.addr2line_bin.specs.ResponseFiles.{with_next, with_plain, words_for, words_in};

use addr2line::FileSource;
use std::alloc::{AllocError, Global};
use std::marker::Model;
use std::str;

// What is read of a text.
#[derive(Drop)]
struct Splitting {
    alloc: Global,
    words: Vec<String>,
    // What is read of the word that has begun, if one has.
    word: String,
    is_begun: bool,
    // The mark that is open, if one is.
    quote: Option<char>,
    // Whether the last character makes the next one part of a word.
    is_escaped: bool,
}

impl Model for Splitting {
    ghost use Rattle.std.specs.Prelude.{string_bytes};
    ghost use Rattle.addr2line_bin.specs.CommandLine.{texts_in};
    ghost use Rattle.addr2line_bin.specs.ResponseFiles.{Splitting as Read};

    ghost Value = { Read };

    ghost view = { λ s. record {
      words = texts_in s.words.items;
      word = string_bytes s.word;
      is_begun = s.is_begun;
      quote = s.quote;
      is_escaped = s.is_escaped;
    } };
}

// Whether a character opens or closes what is quoted.
fn is_quote(c: char) -> bool
    ensures gives { result ≡ is_quote c }
{
    c == '\'' || c == '"'
}

// Whether a character is white space.
fn is_space(c: char) -> bool
    ensures gives { result ≡ is_space c }
{
    matches!(c, ' ' | '\t' | '\n' | '\u{b}' | '\u{c}' | '\r')
}

impl Splitting {
    // Nothing is read.
    fn new(alloc: Global) -> Splitting
        ensures gives { result ≡ nothing_read }
    {
        Splitting {
            alloc,
            words: Vec::new(alloc),
            word: String::new(alloc),
            is_begun: false,
            quote: None,
            is_escaped: false,
        }
    }

    // Makes a character part of a word.
    fn add(&mut self, c: char) -> Result<(), AllocError>
        ensures gives { OnOk result (self.new ≡ with_character self.old c) }
    {
        self.word.push(c)?;
        self.is_begun = true;
        self.is_escaped = false;
        Ok(())
    }

    // Ends the word that has begun.
    fn end(&mut self) -> Result<(), AllocError>
        ensures gives { OnOk result (self.new ≡ with_end self.old) }
    {
        if self.is_begun {
            let word = std::mem::replace(&mut self.word, String::new(self.alloc));
            self.words.push(word)?;
            self.is_begun = false;
        }
        Ok(())
    }

    // Reads the next character.
    fn read(&mut self, c: char) -> Result<(), AllocError>
        ensures gives { OnOk result (self.new ≡ with_next self.old c) }
    {
        if self.is_escaped {
            return self.add(c);
        }
        if c == '\\' {
            self.is_begun = true;
            self.is_escaped = true;
            return Ok(());
        }
        match self.quote {
            Some(mark) if c == mark => {
                self.quote = None;
                Ok(())
            }
            Some(_) => self.add(c),
            None => self.read_plain(c),
        }
    }

    // Reads a character where nothing is quoted.
    fn read_plain(&mut self, c: char) -> Result<(), AllocError>
        ensures gives { OnOk result (self.new ≡ with_plain self.old c) }
    {
        if is_quote(c) {
            self.quote = Some(c);
            self.is_begun = true;
            Ok(())
        } else if is_space(c) {
            self.end()
        } else {
            self.add(c)
        }
    }
}

// The words of a text.
fn words_in(alloc: Global, text: &str) -> Result<Vec<String>, AllocError>
    ensures gives { IfOk result (λ v. texts_in v.items ≡ words_in text.now) }
{
    let mut read = Splitting::new(alloc);
    for c in text.chars() {
        read.read(c)?;
    }
    read.end()?;
    Ok(read.words)
}

// The path that a word names as a file of words, if it does.
fn response_path(word: &str) -> Option<&str>
    ensures gives { option_map (λ path. path.now) result ≡ response_path word.now }
{
    word.strip_prefix("@")
}

// The bytes as a text, if they are UTF-8.
fn text_in(bytes: &[u8]) -> Option<&str>
    ensures gives { option_map (λ text. text.now) result ≡ text_in bytes.now }
{
    match str::from_utf8(bytes) {
        Ok(text) => Some(text),
        Err(_) => None,
    }
}

// Adds the words of a text, or the word itself where there is none.
fn push_words(
    alloc: Global,
    words: &mut Vec<String>,
    word: &str,
    text: Option<&str>,
) -> Result<(), AllocError>
    ensures gives { OnOk result (texts_in words.new.items ≡ texts_in words.old.items
        ++ option_map_or words_in (option_map (λ t. t.now) text.entry) (word.now ∷ [])) }
{
    match text {
        Some(text) => words.append(&mut words_in(alloc, text)?)?,
        None => words.push(String::from_str(alloc, word)?)?,
    }
    Ok(())
}

// Adds the words that a word stands for.
fn push_expanded<F: FileSource>(
    alloc: Global,
    files: &F,
    words: &mut Vec<String>,
    word: &str,
) -> Result<(), AllocError>
    ensures gives { IfSome (F.files files.now) (λ held. OnOk result (texts_in words.new.items
        ≡ texts_in words.old.items ++ words_for held word.now)) }
{
    let Some(path) = response_path(word) else {
        return push_words(alloc, words, word, None);
    };
    match files.read(alloc, path)? {
        Some(bytes) => push_words(alloc, words, word, text_in(bytes.as_slice())),
        None => push_words(alloc, words, word, None),
    }
}

// Adds the words that words stand for.
fn push_all<F: FileSource>(
    alloc: Global,
    files: &F,
    taken: &mut Vec<String>,
    words: &[String],
) -> Result<(), AllocError>
    ensures gives { IfSome (F.files files.now) (λ held. OnOk result (texts_in taken.new.items
        ≡ texts_in taken.old.items ++ flat_map (words_for held) (texts_in words.now))) }
{
    for word in words {
        push_expanded(alloc, files, taken, word.as_str())?;
    }
    Ok(())
}

// Whether a word names a file of words.
fn is_response(word: &str) -> bool
    ensures gives { result ≡ is_response word.now }
{
    response_path(word).is_some()
}

// Whether one of these words does.
fn has_response(words: &[String]) -> bool
    ensures gives { result ≡ list_any is_response (texts_in words.now) }
{
    for word in words {
        if is_response(word.as_str()) {
            return true;
        }
    }
    false
}

/// The words of a command line, with those of files in place of words that name these; none where
/// no word does.
///
/// Word 0 stays, and each word that names no file of UTF-8. Takes no memory where no word after
/// word 0 begins with `@`; fails where a growth was refused. Source: own, as GNU's and LLVM's
/// programs have it.
pub fn expanded_words<F: FileSource>(
    alloc: Global,
    files: &F,
    words: &[String],
) -> Result<Option<Vec<String>>, AllocError>
    ensures gives { IfOk result (λ taken. IfSome taken (λ v.
        IfSome (F.files files.now) (λ held. texts_in v.items ≡ expanded held (texts_in words.now)))) }
    ensures none { has_response (texts_in words.now) ≡ false → result ≡ Ok None }
    ensures some { IfOk result (λ taken. is_some taken ≡ has_response (texts_in words.now)) }
{
    let Some((name, others)) = words.split_first() else {
        return Ok(None);
    };
    if !has_response(others) {
        return Ok(None);
    }
    let mut taken = Vec::new(alloc);
    taken.push(String::from_str(alloc, name.as_str())?)?;
    push_all(alloc, files, &mut taken, others)?;
    Ok(Some(taken))
}
