//! Texts that are shown.

ghost use Rattle.std.specs.Prelude.{◌≡◌, true, decimal, codes, Err};
ghost use Rattle.std.specs.Char.{is_ascii};
ghost use Rattle.std.specs.Char.Escape.{escape_unicode};
ghost use Rattle.std.specs.List.{list_all};
ghost use Rattle.rust_v0.specs.State.{Moves, RefusesText, identifier_of, say, state_of};
ghost use Rattle.rust_v0.specs.declared.stop.Stop.TheVariants.{OutOfMemory};
ghost use Rattle.rust_v0.specs.Shown.{say_char, say_chars, say_decimal, say_escaped, say_identifier, say_punycode, say_quote};

use crate::identifiers::{Identifier, decoded, hyphenated};
use crate::printer::Printer;
use crate::stop::{Fault, Stop};
use itoa::Buffer;

impl<'a> Printer<'a> {
    /// Adds a text, if it has room.
    #[tactic(auto, unfolding(crate::specs::State::say))]
    pub(crate) fn say(&mut self, text: &str) -> Result<(), Stop>
        ensures gives { Moves result (state_of self.new) (say text.now (state_of self.old)) }
        ensures refused { result ≡ Err OutOfMemory → RefusesText text.now self.old }
    {
        if self.mode.is_hidden() {
            return Ok(());
        }
        self.room = self.room.checked_sub(text.len()).ok_or(Fault)?;
        self.text.push_str(text)?;
        Ok(())
    }

    /// Adds ASCII bytes.
    #[tactic(auto, using(crate::proofs::AsciiLemmas::ascii_text))]
    pub(crate) fn say_ascii(&mut self, bytes: &[u8]) -> Result<(), Stop>
        requires { list_all is_ascii bytes.now ≡ true }
        ensures { Moves result (state_of self.new) (say bytes.now (state_of self.old)) }
    {
        self.say(unsafe { std::str::from_utf8_unchecked(bytes) })
    }

    /// Adds a character.
    pub(crate) fn say_char(&mut self, c: char) -> Result<(), Stop>
        ensures { Moves result (state_of self.new) (say_char c (state_of self.old)) }
    {
        let mut buffer = [0u8; 4];
        self.say(c.encode_utf8(buffer.as_mut_slice()))
    }

    /// Adds characters.
    pub(crate) fn say_chars(&mut self, chars: &[char]) -> Result<(), Stop>
        ensures { Moves result (state_of self.new) (say_chars chars.now (state_of self.old)) }
    {
        for c in chars {
            self.say_char(*c)?;
        }
        Ok(())
    }

    /// Adds a number in decimal.
    pub(crate) fn say_decimal(&mut self, number: u64) -> Result<(), Stop>
        ensures { Moves result (state_of self.new) (say_decimal number (state_of self.old)) }
    {
        let mut buffer = Buffer::new();
        self.say(buffer.format(number))
    }

    /// Adds what Punycode stands for, or the Punycode as it stands.
    #[tactic(auto, unfolding(crate::specs::Shown::say_punycode))]
    fn say_punycode(&mut self, word: &[u8]) -> Result<(), Stop>
        requires { list_all is_ascii word.now ≡ true }
        ensures { Moves result (state_of self.new) (say_punycode word.now (state_of self.old)) }
    {
        let spelled = hyphenated(self.alloc, word)?;
        match decoded(self.alloc, word, spelled.as_str())? {
            Some(chars) => self.say_chars(&chars),
            None => {
                self.say("punycode{")?;
                self.say(spelled.as_str())?;
                self.say("}")
            }
        }
    }

    /// Adds an identifier.
    #[tactic(auto, unfolding(crate::specs::Shown::say_identifier))]
    pub(crate) fn say_identifier(&mut self, identifier: Identifier) -> Result<(), Stop>
        requires { list_all is_ascii identifier.word.now ≡ true }
        ensures { Moves result (state_of self.new)
            (say_identifier (identifier_of identifier.entry) (state_of self.old)) }
    {
        if self.mode.is_hidden() {
            return Ok(());
        }
        if identifier.is_punycode {
            self.say_punycode(identifier.word)
        } else {
            self.say_ascii(identifier.word)
        }
    }

    /// Adds a quote between quotes.
    fn say_quote(&mut self, quote: char, c: char) -> Result<(), Stop>
        ensures { Moves result (state_of self.new) (say_quote quote c (state_of self.old)) }
    {
        if c == quote {
            self.say("\\")?;
        }
        self.say_char(c)
    }

    /// Adds a character as it stands between quotes.
    #[tactic(auto, unfolding(crate::specs::Shown::say_escaped))]
    pub(crate) fn say_escaped(&mut self, quote: char, c: char) -> Result<(), Stop>
        ensures { Moves result (state_of self.new) (say_escaped quote c (state_of self.old)) }
    {
        match c {
            '\'' | '"' => self.say_quote(quote, c),
            '\\' => self.say("\\\\"),
            '\0' => self.say("\\0"),
            '\t' => self.say("\\t"),
            '\n' => self.say("\\n"),
            '\r' => self.say("\\r"),
            ' '..='~' => self.say_char(c),
            _ => self.say_unicode(c),
        }
    }

    /// Adds the number of a character as an escape.
    fn say_unicode(&mut self, c: char) -> Result<(), Stop>
        ensures { Moves result (state_of self.new)
            (say_chars (escape_unicode c) (state_of self.old)) }
    {
        for e in c.escape_unicode() {
            self.say_char(e)?;
        }
        Ok(())
    }
}
