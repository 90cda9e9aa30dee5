//! The measurements that an inventory defines, in the order of its lines.
//!
//! A name is looked up in a table of places, by a hash of the name. No proof trusts what stands in the table: what it
//! finds is compared with the name, and where it finds nothing the names are gone through.
ghost use Rattle.std.specs.Prelude.{◌≡◌, ◌≢◌, ◌+◌, ◌<◌, ◌≤◌, ◌↔◌, ℕ, List, [], ◌∷◌, ◌++◌, length, Some, IfOk, IfErr, OnErr, IfSome, MatchOption, MatchResult, IsTrue, slice_get, ◌==◌, position};
ghost use Rattle.std.specs.List.{before_first};
ghost use Rattle.pm_base.specs.Pieces.{words_of};
ghost use Rattle.pm_meas.specs.Def.{IsDef};
ghost use Rattle.pm_meas.specs.Catalogue.{names_of, Stands, IsCatalogue, Breaks, Adds, AreOfFamily};

use crate::def::Def;
use crate::error::MeasError;
use crate::line::{Line, read};
use pm_base::Text;
use std::alloc::{AllocError, Global};
use std::marker::Model;

/// The most measurements of a catalogue.
pub const MAX_MEASURES: usize = 64;

const PLACES: usize = 256;

// An odd number whose bits are well mixed: 2 ^ 64 divided by the golden ratio.
const FACTOR: u64 = 0x9e37_79b9_7f4a_7c15;

/// A list of at most 64 permitted definitions of different names. A measurement's number is its place in the list.
#[derive(Debug, Drop)]
pub struct Catalogue {
    defs: Vec<Def>,
    // At a place a measurement's number and one, or 0.
    places: [u8; PLACES],
}

impl Model for Catalogue {
    ghost use Rattle.std.specs.Prelude.{List};
    ghost use Rattle.pm_meas.specs.declared.def.Def.{Def};

    ghost Value = { List Def };

    ghost use Rattle.pm_meas.specs.Catalogue.{IsCatalogue};

    ghost view = { λ c. c.defs.items };

    ghost invariant = { λ c. IsCatalogue c.defs.items };
}

fn is_same(a: &[u8], b: &[u8]) -> bool
    ensures { IsTrue result ↔ (a.now ≡ b.now) }
{
    a == b
}

fn dot(name: &[u8]) -> Option<usize>
    ensures { result ≡ position (λ b. b == 46) name.now }
{
    name.iter().position(|b| *b == b'.')
}

// The part before the first dot.
fn family_of(name: &[u8]) -> &[u8]
    ensures { result.now ≡ before_first (λ b. b == 46) name.now }
{
    match dot(name) {
        Some(end) => &name[..end],
        None => name,
    }
}

// Where the table is looked into first.
fn first_place(name: &[u8]) -> u8 {
    let (words, rest) = name.as_chunks::<8>();
    let mut hash = 0u64;
    for word in words {
        hash = (hash ^ u64::from_le_bytes(*word)).wrapping_mul(FACTOR);
    }
    for byte in rest {
        hash = (hash ^ u64::from(*byte)).wrapping_mul(FACTOR);
    }
    (hash >> 56) as u8
}

// Writes a measurement's number and one at the first empty place.
fn enter(places: &mut [u8; PLACES], first: u8, entry: u8) {
    for step in 0..=u8::MAX {
        let place = &mut places[first.wrapping_add(step) as usize];
        if *place == 0 {
            *place = entry;
            return;
        }
    }
}

impl Catalogue {
    /// The catalogue without measurements. It takes no memory.
    pub fn new(alloc: Global) -> Catalogue
        ensures { result ≡ [] }
    {
        Catalogue {
            defs: Vec::new(alloc),
            places: [0; PLACES],
        }
    }

    /// How many measurements stand.
    pub fn len(&self) -> u8
        ensures value { result ≡ length self.now }
        ensures catalogue { IsCatalogue self.now }
    {
        self.defs.len() as u8
    }

    /// Whether no measurement stands.
    pub fn is_empty(&self) -> bool
        ensures { IsTrue result ↔ (self.now ≡ []) }
    {
        self.defs.is_empty()
    }

    /// The definition of the measurement of this number.
    pub fn def(&self, metric: u8) -> &Def
        requires { metric < length self.now }
        ensures { slice_get self.now metric ≡ Some result.now }
    {
        &self.defs[metric as usize]
    }

    /// The number of the measurement of this name; none where none has it.
    pub fn find(&self, name: &[u8]) -> Option<u8>
        ensures only { (m : ℕ) → slice_get (names_of self.now) m ≡ Some name.now → result ≡ Some m }
        ensures answer { MatchOption result (Stands self.now name.now → ⊥) (λ m. slice_get (names_of self.now) m ≡ Some name.now) }
    {
        if let Some(metric) = self.guess(name) {
            return Some(metric);
        }
        self.search(name)
    }

    fn has_name(&self, metric: u8, name: &[u8]) -> bool
        ensures { IsTrue result ↔ (slice_get (names_of self.now) metric ≡ Some name.now) }
    {
        if metric as usize >= self.defs.len() {
            return false;
        }
        let def = &self.defs[metric as usize];
        is_same(def.name.as_bytes(), name)
    }

    // By the table.
    fn guess(&self, name: &[u8]) -> Option<u8>
        ensures catalogue { IsCatalogue self.now }
        ensures answer { IfSome result (λ m. slice_get (names_of self.now) m ≡ Some name.now) }
    {
        let first = first_place(name);
        for step in 0..=u8::MAX {
            let metric = self.places[first.wrapping_add(step) as usize].checked_sub(1)?;
            if self.has_name(metric, name) {
                return Some(metric);
            }
        }
        None
    }

    // One name after the other.
    #[cold]
    #[inline(never)]
    fn search(&self, name: &[u8]) -> Option<u8>
        ensures { MatchOption result (Stands self.now name.now → ⊥) (λ m. slice_get (names_of self.now) m ≡ Some name.now) }
    {
        for metric in 0..self.len() {
            if self.has_name(metric, name) {
                return Some(metric);
            }
        }
        None
    }

    /// Adds the measurement that the line defines, and gives its number. The line is what stands behind `measure `.
    pub fn add(&mut self, line: &[u8]) -> Result<u8, MeasError>
        ensures added { IfOk result (λ m. (m ≡ length self.old) × Adds self.old line.now self.new) }
        ensures refused { OnErr result (self.new ≡ self.old) }

        // The first rule that is broken is answered, and want of memory only where none is.
        ensures refusal { IfErr result (Breaks self.old (words_of line.now)) }
        ensures exact { (e : MeasError) → e ≢ MeasError.Memory → Breaks self.old (words_of line.now) e → result ≡ Err e }
    {
        let line = read(line)?;
        if self.find(line.name).is_some() {
            return Err(MeasError::M3);
        }
        if self.defs.len() >= MAX_MEASURES {
            return Err(MeasError::M4);
        }
        match self.push(&line) {
            Ok(metric) => Ok(metric),
            Err(_) => Err(MeasError::Memory),
        }
    }

    /// The numbers of the measurements of a family, in order. The family of a name is the part before its first dot.
    pub fn family(&self, alloc: Global, family: &[u8]) -> Result<Vec<u8>, AllocError>
        ensures { IfOk result (λ v. AreOfFamily self.now family.now v.items) }
    {
        let mut metrics = Vec::new(alloc);
        for metric in 0..self.len() {
            let name = self.def(metric).name.as_bytes();
            if is_same(family_of(name), family) {
                metrics.push(metric)?;
            }
        }
        Ok(metrics)
    }

    // Adds the measurement of a line that breaks no rule.
    fn push(&mut self, line: &Line) -> Result<u8, AllocError>
        requires permitted { IsDef (record { name = line.now.name.now; class = line.now.class; kind = line.now.kind; reduce = line.now.reduce }) }
        requires fresh { Stands self.old line.now.name.now → ⊥ }
        requires room { length self.old < MAX_MEASURES }
        ensures added { IfOk result (λ m. (m ≡ length self.old) × (self.new ≡ self.old ++ record { name = line.now.name.now; class = line.now.class; kind = line.now.kind; reduce = line.now.reduce } ∷ [])) }
        ensures refused { OnErr result (self.new ≡ self.old) }
    {
        let metric = self.defs.len() as u8;
        let name = Text::from_slice(*self.defs.allocator(), line.name)?;
        self.defs.push(Def {
            name,
            class: line.class,
            kind: line.kind,
            reduce: line.reduce,
        })?;
        enter(&mut self.places, first_place(line.name), metric + 1);
        Ok(metric)
    }
}
