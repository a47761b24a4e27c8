//! What is left of a lookup that waits for a split file: it goes on, is skipped, or is let go.

ghost use Rattle.std.specs.Prelude.{◌≡◌, Some, IfErr, IfOk, option_map, true};
ghost use Rattle.addr2line.specs.Common.{OutOfMemory, ExactlyUnlessOom, fault_of, Skip, Resumes};
ghost use Rattle.addr2line.specs.AfterAnswering.{AfterResume};
ghost use Rattle.addr2line.specs.Borrowed.{RestsAs};
ghost use Rattle.addr2line.specs.AfterLookups.{AfterFramesOver, HasPassed, IsLent, IsStored};
ghost use Rattle.addr2line.specs.Lookups.{lookup_stop, waits_for};
ghost use Rattle.addr2line.specs.Skips.{AfterSkip};
ghost use Rattle.addr2line.specs.WaitingLookups.{BeginsLookup, HoldsIn, SuspendsAgainIn, SuspendsIn, WaitsOrGives, count_loads, found_answered, found_of_context, found_skipped, found_with_none};

use crate::context::Context;
use crate::kinds::{Lent, LookupKind};
use addr2line_units::continuation::{LookupContinuation, LookupResult};
use addr2line_units::index::UnitRange;
use addr2line_units::unit::SplitDwarfLoad;
use gimli::Dwarf;
use gimli::read::{Error, Reader};
use std::marker::PhantomData;
use std::rc::Rc;

/// The rest of a lookup of the kind `K` that waits for the load `B`.
///
/// It holds the context for writing. Dropping it ends the lookup, as `abandon` does: the unit that
/// it waits for stays open.
pub struct Suspended<'ctx, R: Reader, K: LookupKind, B> {
    pub(crate) ctx: &'ctx mut Context<R>,
    pub(crate) probe: u64,
    pub(crate) number: usize,
    // The range at which it waits.
    pub(crate) place: Option<UnitRange>,
    pub(crate) load: B,
    pub(crate) kind: PhantomData<K>,
    ghost stands: { waits_for number
        (lookup_stop K.faults ctx.now.sections ctx.now.answers probe) ≡ true },
    ghost passed: { HasPassed K.faults ctx.now probe place },
}

impl<'ctx, R: Reader, K: LookupKind, B: Drop> Drop for Suspended<'ctx, R, K, B> {
    fn drop(self)
        ensures kept { self.exit.0.now ≡ self.entry.ctx.now }
    {
        let Suspended {
            ctx: _,
            probe: _,
            number: _,
            place: _,
            load: _,
            kind: _,
        } = self;
    }
}

impl<'ctx, R: Reader, K: LookupKind, B: Drop> Suspended<'ctx, R, K, B> {
    /// Ends the lookup: the unit that it waits for stays open. Takes no memory.
    pub fn abandon(self)
        ensures kept { self.exit.0.now ≡ self.entry.ctx.now }
    {
        drop(self);
    }

    /// Ends the lookup, and gives its load. Takes no memory.
    pub fn into_load(self) -> B
        ensures kept { self.exit.0.now ≡ self.entry.ctx.now }
        ensures gives { result ≡ self.entry.load }
    {
        let Suspended {
            ctx: _,
            probe: _,
            number: _,
            place: _,
            load,
            kind: _,
        } = self;
        load
    }
}

impl<'ctx, R: Reader, K: Lent<'ctx, Context<R>>> LookupContinuation
    for Suspended<'ctx, R, K, SplitDwarfLoad<R>> {
    type Output = Result<K::Found, Error>;

    type Load = SplitDwarfLoad<R>;

    type Sections = Rc<Dwarf<R>>;

    ghost left = { λ c. count_loads c.ctx.now c.probe };

    ghost skips_to = { λ c o. ExactlyUnlessOom (λ f. Some (K.see f)) o
        (found_with_none K.faults K.value_of c.ctx.now c.probe) };

    fn load(&self) -> &SplitDwarfLoad<R>
        ensures gives { result.now ≡ self.now.load }
    {
        &self.load
    }

    fn resume(self, input: Option<Rc<Dwarf<R>>>) -> LookupResult<Self>
        ensures* ends { RestsAs 𝓛 (λ c. c.ctx.ghost_name) R.row R.Reader self.entry.ctx result
            (λ o n. AfterResume R.shares K.faults self.entry.probe self.entry.number
            (option_map (λ d. d.value) input) o self.entry.ctx.now n) }
        ensures gives { WaitsOrGives K.faults K.see (found_answered K.faults K.value_of
            self.entry.ctx.now self.entry.number (option_map (λ d. d.value) input) self.entry.probe)
            result (λ c. SuspendsAgainIn K.faults self.entry.ctx self.entry.probe self.entry.number
            (option_map (λ d. d.value) input) c.ctx c.probe c.number c.load) }
        ensures after { Resumes self.entry (λ c. count_loads c.ctx.now c.probe)
            (λ c o. ExactlyUnlessOom (λ f. Some (K.see f)) o
            (found_with_none K.faults K.value_of c.ctx.now c.probe)) input result }
    {
        let Suspended {
            ctx,
            probe,
            number,
            place,
            load: _,
            kind: _,
        } = self;
        match ctx.answer(number, input) {
            Ok(()) => look_up(ctx, place, probe),
            Err(error) => LookupResult::Output(Err(error)),
        }
    }
}

impl<'ctx, R: Reader, K: Lent<'ctx, Context<R>>, B: Drop> Suspended<'ctx, R, K, B> {
    /// Answers none to this load and to each later one, and gives the output. The units that waited
    /// are decided by none, and stay so until they are forgotten.
    ///
    /// Refused as the call that began the lookup is. It is what `skip_all_loads` gives; here it is
    /// said too which context is left.
    pub fn skip(self) -> LookupResult<Suspended<'ctx, R, K, SplitDwarfLoad<R>>>
        ensures* ends { RestsAs 𝓛 (λ c. c.ctx.ghost_name) R.row R.Reader self.entry.ctx result
            (λ o n. AfterSkip R.shares K.faults self.entry.probe o self.entry.ctx.now n) }
        ensures gives { WaitsOrGives K.faults K.see (found_skipped K.faults K.value_of
            self.entry.ctx.now self.entry.probe) result (λ c. ⊥) }
    {
        let Suspended {
            ctx,
            probe,
            number: _,
            place: _,
            load: _,
            kind: _,
        } = self;
        let walked = ctx.skip_loads(probe, K::on_fault());
        lend(ctx, probe, walked)
    }
}

// What a lookup gives that the context has stored.
#[inline(always)]
fn lend<'ctx, R: Reader, K: Lent<'ctx, Context<R>>>(
    ctx: &'ctx mut Context<R>,
    probe: u64,
    walked: Result<Option<UnitRange>, Error>,
) -> LookupResult<Suspended<'ctx, R, K, SplitDwarfLoad<R>>>
    requires stored { IsStored K.faults probe walked ctx.old }
    requires passed { IfOk walked (HasPassed K.faults ctx.old probe) }
    requires refused { K.faults ≡ Skip → IfErr walked (λ e. e ≡ OutOfMemory) }
    ensures* ends { RestsAs 𝓛 (λ c. c.ctx.ghost_name) R.row R.Reader ctx.entry result
        (λ o n. (n ≡ ctx.old) × IsLent (fault_of walked) ctx.old.stop o) }
    ensures gives { WaitsOrGives K.faults K.see (found_of_context K.faults K.value_of ctx.old probe)
        result (λ c. HoldsIn ctx.entry probe (fault_of walked) c.ctx c.probe c.number c.load) }
{
    match walked {
        Ok(place) => match ctx.waits_for() {
            Some(number) => match ctx.load_of(number) {
                Ok(load) => LookupResult::Load {
                    continuation: Suspended {
                        ctx,
                        probe,
                        number,
                        place,
                        load,
                        kind: PhantomData,
                    },
                },
                Err(error) => LookupResult::Output(Err(error)),
            },
            None => LookupResult::Output(Ok(K::found(ctx))),
        },
        Err(error) => LookupResult::Output(Err(error)),
    }
}

// A lookup by what is cached, which goes on at a place up to which it has asked, or begins where
// there is none.
#[inline(always)]
pub(crate) fn look_up<'ctx, R: Reader, K: Lent<'ctx, Context<R>>>(
    ctx: &'ctx mut Context<R>,
    place: Option<UnitRange>,
    probe: u64,
) -> LookupResult<Suspended<'ctx, R, K, SplitDwarfLoad<R>>>
    requires passed { HasPassed K.faults ctx.old probe place }
    ensures* ends { RestsAs 𝓛 (λ c. c.ctx.ghost_name) R.row R.Reader ctx.entry result
        (λ o n. AfterFramesOver R.shares K.faults probe o ctx.old n) }
    ensures gives { BeginsLookup K.faults K.value_of K.see ctx.old probe result
        (λ c. SuspendsIn K.faults ctx.entry probe c.ctx c.probe c.number c.load) }
{
    let walked = ctx.walk(place, probe, K::on_fault());
    lend(ctx, probe, walked)
}
