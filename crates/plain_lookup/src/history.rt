//! Calls one after another: of each unit the first answer since it was last forgotten counts.

use crate::calls::{Answer, Call, Frame, Load, Place, Reply, Row};
use crate::detail::detail_of;
use crate::frames::{check_functions, frames_of};
use crate::functions::functions_of;
use crate::index::{Index, Known};
use crate::lines::lines_of;
use crate::location::{location_of, rows_of};
use crate::names::{File, View};
use crate::view::{First, Verdict, decide, load_of};
use gimli::read::{Error, Reader};
use gimli::{Dwarf, DwarfFileType, Unit, UnitRef};
use std::alloc::Global;

/// The units of a file, and the first answer to the load of each.
#[derive(Drop)]
pub struct History<'a, R: Reader> {
    alloc: Global,
    sections: &'a Dwarf<R>,
    index: Index<R>,
    answers: Vec<First<'a, R>>,
}

fn main_view<'m, R: Reader>(sections: &'m Dwarf<R>, unit: &'m Unit<R>) -> View<'m, R> {
    View {
        unit: UnitRef::new(sections, unit),
        file: File::Main,
    }
}

fn split_view<'m, R: Reader>(sections: &'m Dwarf<R>, unit: &'m Unit<R>) -> View<'m, R> {
    View {
        unit: UnitRef::new(sections, unit),
        file: File::Split,
    }
}

impl<'a, R: Reader> History<'a, R> {
    /// The units of a file, of which none has an answer.
    ///
    /// Refused by the first fault of a header of `.debug_aranges`, then of a unit's header or
    /// ranges, unit after unit, then of a header of the supplementary file.
    pub fn new(alloc: Global, sections: &'a Dwarf<R>) -> Result<History<'a, R>, Error> {
        let index = Index::new(alloc, sections)?;
        let mut answers = Vec::new(alloc);
        for _unit in &index.units {
            answers.push(None)?;
        }
        Ok(History {
            alloc,
            sections,
            index,
            answers,
        })
    }

    // Where the entries of a unit are read.
    fn verdict_of(&self, number: usize) -> Result<Verdict<'a, R>, Error> {
        match (self.index.units.get(number), self.answers.get(number)) {
            (Some(kept), Some(first)) => decide(self.alloc, self.sections, kept, *first),
            _ => Err(Error::UnknownToken),
        }
    }

    fn is_open(&self, number: usize) -> bool {
        matches!(self.verdict_of(number), Ok(Verdict::Open))
    }

    // An answer decides a unit that is open.
    fn decide(&mut self, number: usize, sections: Option<&'a Dwarf<R>>) {
        if self.is_open(number) {
            if let Some(first) = self.answers.get_mut(number) {
                *first = Some(sections);
            }
        }
    }

    // Whether a unit is decided, by the next answer where it is open.
    fn is_decided(&mut self, number: usize, answers: &[Answer<'a, R>], used: &mut usize) -> bool {
        if !self.is_open(number) {
            return true;
        }
        match answers.get(*used) {
            Some(Answer::Give(sections)) => {
                self.decide(number, *sections);
                *used = used.saturating_add(1);
                true
            }
            _ => false,
        }
    }

    // The units with their sections.
    fn known(&self) -> Known<'_, R> {
        Known {
            sections: self.sections,
            index: &self.index,
        }
    }

    // The frames of a unit at an address.
    fn frames_in(&self, number: usize, probe: u64) -> Result<Vec<Frame<R>>, Error> {
        let verdict = self.verdict_of(number)?;
        let known = self.known();
        let index = known.index;
        let Some(kept) = index.units.get(number) else {
            return Err(Error::UnknownToken);
        };
        match &verdict {
            Verdict::Split(sections, unit) => {
                let view = split_view(sections, unit);
                frames_of(self.alloc, known, kept, view, probe)
            }
            _ => {
                let view = main_view(known.sections, &kept.unit);
                frames_of(self.alloc, known, kept, view, probe)
            }
        }
    }

    // The kind of file in which the entries of a unit are read, and where in it the unit begins.
    fn view_of(&self, number: usize) -> Result<(DwarfFileType, u64), Error> {
        match &self.verdict_of(number)? {
            Verdict::Split(sections, unit) => {
                let sections = *sections;
                Ok((sections.file_type, unit.header.offset().0))
            }
            _ => match self.index.units.get(number) {
                Some(kept) => {
                    let sections = self.sections;
                    Ok((sections.file_type, kept.unit.header.offset().0))
                }
                None => Err(Error::UnknownToken),
            },
        }
    }

    // Refused by the fault of a unit's view, of its functions and, if asked for, of their details.
    fn check(&self, number: usize, with_details: bool) -> Result<(), Error> {
        let verdict = self.verdict_of(number)?;
        let known = self.known();
        let index = known.index;
        let Some(kept) = index.units.get(number) else {
            return Err(Error::UnknownToken);
        };
        match &verdict {
            Verdict::Split(sections, unit) => {
                let view = split_view(sections, unit);
                check_functions(self.alloc, known, view, with_details)
            }
            _ => {
                let view = main_view(known.sections, &kept.unit);
                check_functions(self.alloc, known, view, with_details)
            }
        }
    }

    // The location of an address: that of the first covering unit with a fault or a row.
    fn location(&self, probe: u64) -> Result<Option<Place>, Error> {
        for number in &self.index.cover_of(self.alloc, probe)? {
            if let Some(kept) = self.index.units.get(*number) {
                let lines = lines_of(self.alloc, self.sections, &kept.unit)?;
                if let Some(place) = location_of(self.alloc, &lines, probe)? {
                    return Ok(Some(place));
                }
            }
        }
        Ok(None)
    }

    // The rows of each unit range that a range meets, or the fault of its lines.
    fn rows(&self, low: u64, high: u64) -> Result<Vec<Result<Row, Error>>, Error> {
        let mut rows = Vec::new(self.alloc);
        for (number, range) in &self.index.cover(self.alloc, low, high)? {
            if let Some(kept) = self.index.units.get(*number) {
                let below = high.min(range.end);
                let above = low.max(range.begin);
                match lines_of(self.alloc, self.sections, &kept.unit) {
                    Ok(lines) => rows_of(self.alloc, &lines, above, below, &mut rows)?,
                    Err(error) => rows.push(Err(error))?,
                }
            }
        }
        Ok(rows)
    }

    // The frames of the first covering unit with a fault, a function or a location.
    fn frames(&mut self, probe: u64, answers: &[Answer<'a, R>]) -> Result<Reply<R>, Error> {
        let mut used = 0usize;
        for number in &self.index.cover_of(self.alloc, probe)? {
            if !self.is_decided(*number, answers, &mut used) {
                return Ok(Reply::Suspended(*number));
            }
            match self.frames_in(*number, probe) {
                Ok(frames) if frames.is_empty() => {}
                found => return Ok(Reply::Frames(found)),
            }
        }
        Ok(Reply::Frames(Ok(Vec::new(self.alloc))))
    }

    // The first covering unit with a function or a location; one with a fault is passed over.
    fn unit(&mut self, probe: u64, answers: &[Answer<'a, R>]) -> Result<Reply<R>, Error> {
        let mut used = 0usize;
        for number in &self.index.cover_of(self.alloc, probe)? {
            if !self.is_decided(*number, answers, &mut used) {
                return Ok(Reply::Suspended(*number));
            }
            if let Ok(frames) = self.frames_in(*number, probe) {
                if !frames.is_empty() {
                    return Ok(Reply::Unit(Some(self.view_of(*number)?)));
                }
            }
        }
        Ok(Reply::Unit(None))
    }

    // The loads of the open units at an address, each once.
    fn preload(&self, probe: u64) -> Result<Vec<Load<R>>, Error> {
        let mut loads: Vec<Load<R>> = Vec::new(self.alloc);
        for number in &self.index.cover_of(self.alloc, probe)? {
            if self.is_open(*number) && !loads.iter().any(|load| load.unit == *number) {
                if let Some(load) = load_of(self.known(), *number)? {
                    loads.push(load)?;
                }
            }
        }
        Ok(loads)
    }

    // The verdict of a unit after an answer, which counts where it is open.
    fn load_unit(&mut self, number: usize, sections: Option<&'a Dwarf<R>>) -> Result<(), Error> {
        self.decide(number, sections);
        self.verdict_of(number)?;
        Ok(())
    }

    fn forget(&mut self, number: usize) -> Result<(), Error> {
        match self.answers.get_mut(number) {
            Some(first) => {
                *first = None;
                Ok(())
            }
            None => Err(Error::UnknownToken),
        }
    }

    // The first fault of the lines of a unit.
    fn parse_lines(&self) -> Result<(), Error> {
        for kept in &self.index.units {
            lines_of(self.alloc, self.sections, &kept.unit)?;
        }
        Ok(())
    }

    // The first fault of a unit's view, functions and, if asked for, details. Each open unit up to it
    // is decided by none.
    fn parse_functions(&mut self, with_details: bool) -> Result<(), Error> {
        for number in 0..self.answers.len() {
            self.decide(number, None);
            self.check(number, with_details)?;
        }
        Ok(())
    }

    /// Makes one call. Refused `OutOfMemory` alone.
    pub fn step(&mut self, call: Call<'_, 'a, R>) -> Result<Reply<R>, Error> {
        match call {
            Call::Location(probe) => Ok(Reply::Location(self.location(probe))),
            Call::LocationRange(low, high) => Ok(Reply::Range(self.rows(low, high)?)),
            Call::Frames(probe, answers) => self.frames(probe, answers),
            Call::Unit(probe, answers) => self.unit(probe, answers),
            Call::Preload(probe) => Ok(Reply::Preload(self.preload(probe)?)),
            Call::LoadUnit(unit, sections) => Ok(Reply::Done(self.load_unit(unit, sections))),
            Call::Forget(unit) => Ok(Reply::Done(self.forget(unit))),
            Call::ParseLines => Ok(Reply::Done(self.parse_lines())),
            Call::ParseFunctions => Ok(Reply::Done(self.parse_functions(false))),
            Call::ParseInlinedFunctions => Ok(Reply::Done(self.parse_functions(true))),
        }
    }

    // The ends of the ranges of a unit's functions and inlined functions, as far as they can be read.
    fn list_functions(&self, number: usize, found: &mut Vec<u64>) -> Result<(), Error> {
        let known = self.known();
        let index = known.index;
        let Some(kept) = index.units.get(number) else {
            return Ok(());
        };
        let view = main_view(known.sections, &kept.unit);
        let Ok(functions) = functions_of(self.alloc, view.unit) else {
            return Ok(());
        };
        for (offset, range) in &functions {
            found.extend_from_slice(&[range.begin, range.end])?;
            if let Ok(detail) = detail_of(self.alloc, known, view, *offset) {
                detail.list_ends(found)?;
            }
        }
        Ok(())
    }

    /// The addresses at which answers may change: the ends of the ranges that lead to units, and
    /// those of the rows and functions of these units, as far as they can be read. Refused
    /// `OutOfMemory` alone.
    pub fn addresses(&self) -> Result<Vec<u64>, Error> {
        let mut found = Vec::new(self.alloc);
        for (end, _, begin) in &self.index.ranges {
            found.extend_from_slice(&[*begin, *end])?;
        }
        for (number, kept) in self.index.units.iter().enumerate() {
            if let Ok(lines) = lines_of(self.alloc, self.sections, &kept.unit) {
                lines.list_ends(&mut found)?;
            }
            self.list_functions(number, &mut found)?;
        }
        Ok(found)
    }
}
