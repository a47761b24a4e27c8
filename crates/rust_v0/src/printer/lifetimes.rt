//! Lifetimes, and the binders that name them.

ghost use Rattle.std.specs.Prelude.{◌≡◌, ◌+◌, ◌<◌, ◌^◌};
ghost use Rattle.rust_v0.specs.State.{Gives, Moves, state_of};
ghost use Rattle.rust_v0.specs.Leaves.{bind, bind_some, binder, lifetime_index, more_levels, object_lifetime, reference_lifetime, say_level, say_lifetime, say_object_lifetime, say_reference_lifetime};

use crate::printer::Printer;
use crate::stop::{Fault, Stop};

impl<'a> Printer<'a> {
    /// Adds the name of a lifetime that is bound: level 0 is the outermost.
    #[tactic(auto, unfolding(crate::specs::Leaves::say_level))]
    fn say_level(&mut self, level: u64) -> Result<(), Stop>
        ensures { Moves result (state_of self.new) (say_level level (state_of self.old)) }
    {
        if level < 26 {
            self.say("'")?;
            self.say_char((b'a' + level as u8) as char)
        } else {
            self.say("'_")?;
            self.say_decimal(level)
        }
    }

    /// Adds the name of a lifetime: 1 is the innermost, and 0 an erased one.
    #[tactic(auto, unfolding(crate::specs::Leaves::say_lifetime))]
    pub(crate) fn say_lifetime(&mut self, index: u64) -> Result<(), Stop>
        ensures { Moves result (state_of self.new) (say_lifetime index (state_of self.old)) }
    {
        if self.mode.is_hidden() {
            return Ok(());
        }
        if index == 0 {
            return self.say("'_");
        }
        let level = self.bound.checked_sub(index).ok_or(Fault)?;
        self.say_level(level)
    }

    /// Adds the names of so many lifetimes from that level on, after others.
    #[tactic(auto, using(crate::proofs::LevelLemmas::levels_more, crate::proofs::LevelLemmas::levels_end))]
    fn more_levels(&mut self, level: u64, count: u64) -> Result<(), Stop>
        requires { level + count < 2 ^ 64 }
        ensures { Moves result (state_of self.new) (more_levels level count (state_of self.old)) }
    {
        let mut level = level;
        let mut left = count;
        while left > 0 {
            self.say(", ")?;
            self.say_level(level)?;
            level += 1;
            left -= 1;
        }
        Ok(())
    }

    /// Binds so many lifetimes, one at least.
    fn bind_some(&mut self, count: u64, bound: u64) -> Result<(), Stop>
        requires some { 0 < count }
        requires sum { bound ≡ self.old.bound + count }
        ensures { Moves result (state_of self.new) (bind_some count (state_of self.old)) }
    {
        let level = self.bound;
        self.say("for<")?;
        self.say_level(level)?;
        self.more_levels(level + 1, count - 1)?;
        self.say("> ")?;
        self.bound = bound;
        Ok(())
    }

    /// Binds so many lifetimes.
    #[tactic(auto, unfolding(crate::specs::Leaves::bind))]
    fn bind(&mut self, count: u64) -> Result<(), Stop>
        ensures { Moves result (state_of self.new) (bind count (state_of self.old)) }
    {
        if self.mode.is_hidden() || count == 0 {
            return Ok(());
        }
        let bound = self.bound.checked_add(count).ok_or(Fault)?;
        self.bind_some(count, bound)
    }

    /// The lifetimes that are bound from here on, if there are some.
    #[tactic(auto, unfolding(crate::specs::Leaves::binder))]
    pub(crate) fn binder(&mut self) -> Result<(), Stop>
        ensures { Moves result (state_of self.new) (binder (state_of self.old)) }
    {
        let count = self.counted(b'G')?;
        self.bind(count)
    }

    /// Adds the lifetime of a reference, unless it is erased.
    fn say_reference_lifetime(&mut self, index: u64) -> Result<(), Stop>
        ensures { Moves result (state_of self.new)
            (say_reference_lifetime index (state_of self.old)) }
    {
        if index == 0 {
            return Ok(());
        }
        self.say_lifetime(index)?;
        self.say(" ")
    }

    /// The lifetime of a reference, if it has one.
    #[tactic(auto, unfolding(crate::specs::Leaves::reference_lifetime))]
    pub(crate) fn reference_lifetime(&mut self) -> Result<(), Stop>
        ensures { Moves result (state_of self.new) (reference_lifetime (state_of self.old)) }
    {
        if !self.skip(b'L') {
            return Ok(());
        }
        let index = self.number()?;
        self.say_reference_lifetime(index)
    }

    /// Adds the lifetime of a trait object, unless it is erased.
    fn say_object_lifetime(&mut self, index: u64) -> Result<(), Stop>
        ensures { Moves result (state_of self.new)
            (say_object_lifetime index (state_of self.old)) }
    {
        if index == 0 {
            return Ok(());
        }
        self.say(" + ")?;
        self.say_lifetime(index)
    }

    /// The number of the lifetime of a trait object.
    #[tactic(auto, unfolding(crate::specs::Leaves::lifetime_index))]
    fn lifetime_index(&mut self) -> Result<u64, Fault>
        ensures { Gives (λ n. n) result (state_of self.new)
            (lifetime_index (state_of self.old)) }
    {
        if !self.skip(b'L') {
            return Err(Fault);
        }
        self.number()
    }

    /// The lifetime of a trait object.
    #[tactic(auto, unfolding(crate::specs::Leaves::object_lifetime))]
    pub(crate) fn object_lifetime(&mut self) -> Result<(), Stop>
        ensures { Moves result (state_of self.new) (object_lifetime (state_of self.old)) }
    {
        let index = self.lifetime_index()?;
        self.say_object_lifetime(index)
    }
}
