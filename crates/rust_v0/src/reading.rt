//! The reading of productions, by levels.

ghost use Rattle.std.specs.Prelude.{◌≡◌, ◌+◌, ◌-◌, ◌≤◌, Err, IfOk, length, map, true, false};
ghost use Rattle.rust_v0.specs.declared.stop.Stop.TheVariants as stops;
ghost use Rattle.rust_v0.specs.Grammar.{part_of};
ghost use Rattle.rust_v0.specs.State.{Gives, Moves, MovesTo, Passes, state_of};
ghost use Rattle.rust_v0.specs.Reads.{back_reference, bindings, binding_name, bound_traits, bounded_trait, close, count, field_name, function_result, hidden, impl_place, item_reading, items, lifetime_argument, more_from, nested_path, part_reading, place_before, reads, rule, shape, shape_of, splat, tagged_parts, value, variant_contents};

use crate::grammar::{Item, Part, Production, head, is_type};
use crate::printer::{Mode, Printer};
use crate::stop::{Fault, Stop};

/// What a struct or a variant contains.
#[derive(Clone, Copy)]
pub(crate) enum Shape {
    /// Nothing.
    Unit,
    /// Constants in parentheses.
    Tuple,
    /// Fields with names in braces.
    Named,
}

/// What a struct or a variant contains, by its letter.
fn shape_of(letter: u8) -> Option<Shape>
    ensures { result ≡ shape_of letter }
{
    match letter {
        b'U' => Some(Shape::Unit),
        b'T' => Some(Shape::Tuple),
        b'S' => Some(Shape::Named),
        _ => None,
    }
}

impl<'a> Printer<'a> {
    /// Passes over the tag of a production, and gives its parts.
    fn head(&mut self, production: Production) -> Result<&'static [Part], Fault>
        ensures { Gives (λ parts. map part_of parts.now) result (state_of self.new)
            (tagged_parts production (state_of self.old)) }
    {
        let (parts, rest) = head(production, self.rest).ok_or(Fault)?;
        self.rest = rest;
        Ok(parts)
    }

    /// Counts a production.
    fn count(&mut self) -> Result<(), Fault>
        ensures { Passes result (state_of self.new) (count (state_of self.old)) }
    {
        self.left = self.left.checked_sub(1).ok_or(Fault)?;
        Ok(())
    }

    /// The `w` that may stand before a type.
    #[tactic(auto, unfolding(crate::specs::Reads::splat))]
    fn splat(&mut self, production: Production) -> Result<(), Stop>
        ensures { Moves result (state_of self.new) (splat production (state_of self.old)) }
    {
        if is_type(production) && self.skip(b'w') {
            self.say("#[splat] ")
        } else {
            Ok(())
        }
    }

    /// The place of the tag that was just read.
    fn here(&self) -> usize
        ensures gives { result ≡ length self.now.name.now - (length self.now.rest.now + 1) }
        ensures within { result ≤ length self.now.name.now }
    {
        self.name.len().saturating_sub(self.rest.len() + 1)
    }

    /// The place that a reference names: any before that of its own tag.
    #[tactic(auto, unfolding(crate::specs::Reads::place_before))]
    fn place_before(&mut self) -> Result<usize, Fault>
        ensures gives { Gives (λ at. at) result (state_of self.new)
            (place_before (state_of self.old)) }
        ensures within { IfOk result (λ at. at ≤ length self.new.name.now) }
    {
        let here = self.here();
        let at = self.number()?;
        if at < here as u64 {
            Ok(at as usize)
        } else {
            Err(Fault)
        }
    }

    /// What a struct or a variant contains, by its letter.
    fn shape(&mut self) -> Result<Shape, Fault>
        ensures { Gives (λ x. x) result (state_of self.new) (shape (state_of self.old)) }
    {
        let (letter, rest) = self.rest.split_first().ok_or(Fault)?;
        let shape = shape_of(*letter).ok_or(Fault)?;
        self.rest = rest;
        Ok(shape)
    }

    /// A lifetime that is a generic argument.
    #[tactic(auto, unfolding(crate::specs::Reads::lifetime_argument))]
    fn lifetime_argument(&mut self) -> Result<(), Stop>
        ensures { Moves result (state_of self.new) (lifetime_argument (state_of self.old)) }
    {
        let index = self.number()?;
        self.say_lifetime(index)
    }

    /// The name of a field.
    #[tactic(auto, unfolding(crate::specs::Reads::field_name))]
    fn field_name(&mut self) -> Result<(), Stop>
        ensures { Moves result (state_of self.new) (field_name (state_of self.old)) }
    {
        self.counted(b's')?;
        let identifier = self.identifier()?;
        self.say_identifier(identifier)?;
        self.say(": ")
    }

    /// The name of a trait's item that is bound.
    #[tactic(auto, unfolding(crate::specs::Reads::binding_name))]
    fn binding_name(&mut self) -> Result<(), Stop>
        ensures { Moves result (state_of self.new) (binding_name (state_of self.old)) }
    {
        let identifier = self.identifier()?;
        self.say_identifier(identifier)?;
        self.say(" = ")
    }

    /// Closes a trait's path and its bindings.
    fn close(&mut self, is_some: bool) -> Result<(), Stop>
        ensures { Moves result (state_of self.new) (close is_some (state_of self.old)) }
    {
        if is_some { self.say(">") } else { Ok(()) }
    }

    /// Reads a production, with so many levels inside one another.
    ///
    /// `Fault` also where a limit is passed.
    #[cycle(read)]
    #[tactic(auto, using(crate::proofs::ReadLemmas::reads_none, crate::proofs::ReadLemmas::reads_more))]
    pub(crate) fn read(&mut self, levels: u32, production: Production) -> Result<(), Stop>
        ensures gives { Moves result (state_of self.new)
            (reads levels production (state_of self.old)) }
        ensures none { levels ≡ 0 → result ≡ Err stops.Fault }
    {
        let inner = levels.checked_sub(1).ok_or(Fault)?;
        self.rule(inner, production)
    }

    /// Reads the parts of a production, under the binders around it.
    #[cycle(read)]
    #[tactic(auto, unfolding(crate::specs::Reads::parts_reading))]
    fn rule(&mut self, inner: u32, production: Production) -> Result<(), Stop>
        ensures { Moves result (state_of self.new)
            (rule (reads inner) production (state_of self.old)) }
    {
        let bound = self.bound;
        self.count()?;
        self.splat(production)?;
        let parts = self.head(production)?;
        for part in parts {
            self.part(inner, *part)?;
        }
        self.bound = bound;
        Ok(())
    }

    /// Reads a part.
    #[cycle(read)]
    fn part(&mut self, inner: u32, part: Part) -> Result<(), Stop>
        ensures { Moves result (state_of self.new)
            (part_reading (reads inner) (part_of part) (state_of self.old)) }
    {
        match part {
            Part::Shown(text) => self.say(text),
            Part::Single(leaf) => self.leaf(leaf),
            Part::Inside(production) => self.read(inner, production),
            Part::Nested(production) => self.nested(inner, production),
            Part::Place => self.place(inner),
            Part::Reference(production) => self.reference(inner, production),
            Part::List(item, between) => self.list(inner, item, between, ""),
            Part::More(item, between) => self.more(inner, item, between),
            Part::Tuple(item) => self.list(inner, item, ", ", ","),
            Part::Traits => self.traits(inner),
            Part::Contents => self.contents(inner),
            Part::Returned => self.returned(inner),
        }
    }

    /// A namespace, the path that it is in, and a name in it.
    #[cycle(read)]
    #[tactic(auto, unfolding(crate::specs::Reads::nested_path))]
    fn nested(&mut self, inner: u32, path: Production) -> Result<(), Stop>
        ensures { Moves result (state_of self.new)
            (nested_path (reads inner) path (state_of self.old)) }
    {
        let space = self.letter()?;
        self.read(inner, path)?;
        self.segment(space)
    }

    /// A path that isn't shown.
    #[cycle(read)]
    #[tactic(auto, unfolding(crate::specs::Reads::hidden))]
    pub(crate) fn hidden(&mut self, levels: u32) -> Result<(), Stop>
        ensures { Moves result (state_of self.new) (hidden (reads levels) (state_of self.old)) }
    {
        let mode = self.mode;
        self.mode = Mode::Hidden;
        self.read(levels, Production::TypePath)?;
        self.mode = mode;
        Ok(())
    }

    /// Where an impl stands, which isn't shown.
    #[cycle(read)]
    #[tactic(auto, unfolding(crate::specs::Reads::impl_place))]
    fn place(&mut self, inner: u32) -> Result<(), Stop>
        ensures { Moves result (state_of self.new) (impl_place (reads inner) (state_of self.old)) }
    {
        self.counted(b's')?;
        self.hidden(inner)
    }

    /// A place earlier in the name, and the production as it reads from there.
    #[cycle(read)]
    #[tactic(auto, unfolding(crate::specs::Reads::back_reference))]
    fn reference(&mut self, inner: u32, production: Production) -> Result<(), Stop>
        ensures { Moves result (state_of self.new)
            (back_reference (reads inner) production (state_of self.old)) }
    {
        let at = self.place_before()?;
        if self.mode.is_hidden() {
            return Ok(());
        }
        let rest = self.rest;
        self.rest = &self.name[at..];
        self.read(inner, production)?;
        self.rest = rest;
        Ok(())
    }

    /// Items up to `E`, with a text between, and another after one alone.
    #[cycle(read)]
    #[tactic(auto, unfolding(crate::specs::Reads::items))]
    fn list(&mut self, inner: u32, item: Item, between: &str, alone: &str) -> Result<(), Stop>
        ensures { Moves result (state_of self.new)
            (items (reads inner) item between.now alone.now (state_of self.old)) }
    {
        if self.skip(b'E') {
            return Ok(());
        }
        self.item(inner, item)?;
        if self.skip(b'E') {
            return self.say(alone);
        }
        self.more(inner, item, between)
    }

    /// Items up to `E`, with a text before each.
    #[cycle(read)]
    #[tactic(auto, using(crate::proofs::ReadLemmas::more_none, crate::proofs::ReadLemmas::more_one))]
    fn more(&mut self, inner: u32, item: Item, between: &str) -> Result<(), Stop>
        ensures { Moves result (state_of self.new)
            (more_from (reads inner) item between.now (state_of self.old)) }
    {
        let mut turns = self.rest.len();
        while turns > 0 {
            if self.skip(b'E') {
                return Ok(());
            }
            self.say(between)?;
            self.item(inner, item)?;
            turns -= 1;
        }
        Err(Stop::Fault)
    }

    /// An item of a list.
    #[cycle(read)]
    #[tactic(auto, unfolding(crate::specs::Reads::argument, crate::specs::Reads::field))]
    fn item(&mut self, inner: u32, item: Item) -> Result<(), Stop>
        ensures { Moves result (state_of self.new)
            (item_reading (reads inner) item (state_of self.old)) }
    {
        match item {
            Item::Argument => {
                if self.skip(b'L') {
                    return self.lifetime_argument();
                }
                self.value(inner)
            }
            Item::TypeItem => self.read(inner, Production::AnyType),
            Item::ConstantItem => self.read(inner, Production::BareConstant),
            Item::Field => {
                self.field_name()?;
                self.read(inner, Production::BareConstant)
            }
            Item::Trait => self.bounded_trait(inner),
            Item::PatternItem => self.read(inner, Production::Pattern),
        }
    }

    /// A constant after `K`, or a type.
    #[cycle(read)]
    #[tactic(auto, unfolding(crate::specs::Reads::value))]
    fn value(&mut self, inner: u32) -> Result<(), Stop>
        ensures { Moves result (state_of self.new) (value (reads inner) (state_of self.old)) }
    {
        if self.skip(b'K') {
            return self.read(inner, Production::BracedConstant);
        }
        self.read(inner, Production::AnyType)
    }

    /// A trait, with bindings of its items.
    #[cycle(read)]
    #[tactic(auto, unfolding(crate::specs::Reads::bounded_trait))]
    fn bounded_trait(&mut self, inner: u32) -> Result<(), Stop>
        ensures { Moves result (state_of self.new)
            (bounded_trait (reads inner) (state_of self.old)) }
    {
        self.is_open = false;
        self.read(inner, Production::TraitPath)?;
        let is_open = self.is_open;
        self.is_open = false;
        let is_bound = self.bindings(inner, is_open)?;
        self.close(is_open || is_bound)
    }

    /// Bindings, as long as a `p` stands first: whether there is one.
    #[cycle(read)]
    #[tactic(auto, using(crate::proofs::ReadLemmas::bindings_none, crate::proofs::ReadLemmas::bindings_one))]
    fn bindings(&mut self, inner: u32, is_open: bool) -> Result<bool, Stop>
        ensures { MovesTo (λ b. b) result (state_of self.new)
            (bindings (reads inner) is_open false (length self.old.rest.now) (state_of self.old)) }
    {
        let mut is_after = is_open;
        let mut is_bound = false;
        let mut turns = self.rest.len();
        while turns > 0 {
            if !self.skip(b'p') {
                return Ok(is_bound);
            }
            self.say(if is_after { ", " } else { "<" })?;
            self.binding_name()?;
            self.value(inner)?;
            is_after = true;
            is_bound = true;
            turns -= 1;
        }
        Ok(is_bound)
    }

    /// Traits under a binder of their own.
    #[cycle(read)]
    #[tactic(auto, unfolding(crate::specs::Reads::bound_traits))]
    fn traits(&mut self, inner: u32) -> Result<(), Stop>
        ensures { Moves result (state_of self.new)
            (bound_traits (reads inner) (state_of self.old)) }
    {
        let bound = self.bound;
        self.binder()?;
        self.list(inner, Item::Trait, " + ", "")?;
        self.bound = bound;
        Ok(())
    }

    /// What a struct or a variant contains.
    #[cycle(read)]
    #[tactic(auto, unfolding(crate::specs::Reads::variant_contents))]
    fn contents(&mut self, inner: u32) -> Result<(), Stop>
        ensures { Moves result (state_of self.new)
            (variant_contents (reads inner) (state_of self.old)) }
    {
        match self.shape()? {
            Shape::Unit => Ok(()),
            Shape::Tuple => {
                self.say("(")?;
                self.list(inner, Item::ConstantItem, ", ", "")?;
                self.say(")")
            }
            Shape::Named => {
                self.say(" { ")?;
                self.list(inner, Item::Field, ", ", "")?;
                self.say(" }")
            }
        }
    }

    /// The result of a function, which isn't shown where it is `()`.
    #[cycle(read)]
    #[tactic(auto, unfolding(crate::specs::Reads::function_result))]
    fn returned(&mut self, inner: u32) -> Result<(), Stop>
        ensures { Moves result (state_of self.new)
            (function_result (reads inner) (state_of self.old)) }
    {
        if self.skip(b'u') {
            return Ok(());
        }
        self.say(" -> ")?;
        self.read(inner, Production::AnyType)
    }
}
