//! What has no production inside: names, and what stands before a function.

ghost use Rattle.std.specs.Prelude.{◌≡◌, true, map};
ghost use Rattle.std.specs.Char.{is_ascii};
ghost use Rattle.std.specs.List.{list_all};
ghost use Rattle.rust_v0.specs.State.{Gives, Moves, identifier_of, state_of};
ghost use Rattle.rust_v0.specs.Shown.{say_chars};
ghost use Rattle.rust_v0.specs.Leaves.{abi, abi_name, abi_word, hyphen, leaf_reading, root, say_abi_word, say_named, say_space, say_spaced, segment, unsafety};

use crate::grammar::Leaf;
use crate::identifiers::{Identifier, word_at};
use crate::printer::Printer;
use crate::stop::{Fault, Stop};

impl<'a> Printer<'a> {
    /// Adds the name of a namespace that is shown.
    fn say_space(&mut self, space: u8) -> Result<(), Stop>
        ensures { Moves result (state_of self.new) (say_space space (state_of self.old)) }
    {
        match space {
            b'C' => self.say("closure"),
            b'S' => self.say("shim"),
            _ => self.say_char(space as char),
        }
    }

    /// Adds a text and an identifier, unless that is empty.
    #[tactic(auto, unfolding(crate::specs::Leaves::say_named))]
    fn say_named(&mut self, before: &str, identifier: Identifier) -> Result<(), Stop>
        requires { list_all is_ascii identifier.word.now ≡ true }
        ensures { Moves result (state_of self.new)
            (say_named before.now (identifier_of identifier.entry) (state_of self.old)) }
    {
        if identifier.word.is_empty() {
            return Ok(());
        }
        self.say(before)?;
        self.say_identifier(identifier)
    }

    /// Adds a namespace that is shown, with its number and its name.
    #[tactic(auto, unfolding(crate::specs::Leaves::say_spaced))]
    fn say_spaced(&mut self, space: u8, number: u64, identifier: Identifier) -> Result<(), Stop>
        requires { list_all is_ascii identifier.word.now ≡ true }
        ensures { Moves result (state_of self.new)
            (say_spaced space number (identifier_of identifier.entry) (state_of self.old)) }
    {
        self.say("::{")?;
        self.say_space(space)?;
        self.say_named(":", identifier)?;
        self.say("#")?;
        self.say_decimal(number)?;
        self.say("}")
    }

    /// Adds a name in a namespace.
    #[tactic(auto, unfolding(crate::specs::Leaves::segment))]
    pub(crate) fn segment(&mut self, space: u8) -> Result<(), Stop>
        ensures { Moves result (state_of self.new) (segment space (state_of self.old)) }
    {
        let number = self.counted(b's')?;
        let identifier = self.identifier()?;
        if space.is_ascii_uppercase() {
            self.say_spaced(space, number, identifier)
        } else {
            self.say_named("::", identifier)
        }
    }

    /// A crate: its number, and its name.
    #[tactic(auto, unfolding(crate::specs::Leaves::root))]
    fn root(&mut self) -> Result<(), Stop>
        ensures { Moves result (state_of self.new) (root (state_of self.old)) }
    {
        self.counted(b's')?;
        let identifier = self.identifier()?;
        self.say_identifier(identifier)
    }

    /// `U`, if it stands there.
    #[tactic(auto, unfolding(crate::specs::Leaves::unsafety))]
    fn unsafety(&mut self) -> Result<(), Stop>
        ensures { Moves result (state_of self.new) (unsafety (state_of self.old)) }
    {
        if self.skip(b'U') {
            self.say("unsafe ")
        } else {
            Ok(())
        }
    }

    /// Adds a word, with hyphens.
    fn say_hyphens(&mut self, word: &[u8]) -> Result<(), Stop>
        ensures { Moves result (state_of self.new)
            (say_chars (map hyphen word.now) (state_of self.old)) }
    {
        for b in word {
            self.say_char(if *b == b'_' { '-' } else { *b as char })?;
        }
        Ok(())
    }

    /// The word of an ABI, which isn't empty.
    fn abi_word(&mut self) -> Result<&'a [u8], Fault>
        ensures { Gives (λ word. word.now) result (state_of self.new)
            (abi_word (state_of self.old)) }
    {
        let (word, rest) = word_at(self.rest).ok_or(Fault)?;
        if word.is_empty() {
            return Err(Fault);
        }
        self.rest = rest;
        Ok(word)
    }

    /// Adds the word of an ABI, with hyphens.
    #[tactic(auto, unfolding(crate::specs::Leaves::say_abi_word))]
    fn say_abi_word(&mut self) -> Result<(), Stop>
        ensures { Moves result (state_of self.new) (say_abi_word (state_of self.old)) }
    {
        let word = self.abi_word()?;
        self.say_hyphens(word)
    }

    /// The name of an ABI.
    #[tactic(auto, unfolding(crate::specs::Leaves::abi_name))]
    fn abi_name(&mut self) -> Result<(), Stop>
        ensures { Moves result (state_of self.new) (abi_name (state_of self.old)) }
    {
        if self.skip(b'C') {
            self.say("C")
        } else {
            self.say_abi_word()
        }
    }

    /// The ABI of a function, if there is one.
    #[tactic(auto, unfolding(crate::specs::Leaves::abi))]
    fn abi(&mut self) -> Result<(), Stop>
        ensures { Moves result (state_of self.new) (abi (state_of self.old)) }
    {
        if !self.skip(b'K') {
            return Ok(());
        }
        self.say("extern \"")?;
        self.abi_name()?;
        self.say("\" ")
    }

    /// What has no production inside.
    pub(crate) fn leaf(&mut self, leaf: Leaf) -> Result<(), Stop>
        ensures { Moves result (state_of self.new) (leaf_reading leaf (state_of self.old)) }
    {
        match leaf {
            Leaf::Root => self.root(),
            Leaf::ReferenceLifetime => self.reference_lifetime(),
            Leaf::ObjectLifetime => self.object_lifetime(),
            Leaf::Binder => self.binder(),
            Leaf::Unsafety => self.unsafety(),
            Leaf::Abi => self.abi(),
            Leaf::Integer => self.integer(),
            Leaf::Sign => self.sign(),
            Leaf::Boolean => self.boolean(),
            Leaf::Character => self.character(),
            Leaf::Text => self.string(),
            Leaf::Open => {
                self.is_open = true;
                Ok(())
            }
        }
    }
}
