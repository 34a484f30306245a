ghost use Rattle.std.specs.Prelude.{◌≡◌, ℕ, ◌∷◌, ◌++◌, [], List, Ok, Err, IfOk, MatchResult, slice_index_or, None};
ghost use Rattle.pit_text.specs.Left.{fields_left};
ghost use Rattle.pit_text.specs.Keys.{key_number};
ghost use Rattle.pit_text.specs.Model.{Fact, header, section, key_line, section_line, missing_key};
ghost use Rattle.pit_model.specs.Pit.{empty_pit};

use super::header::value_of_key;
use super::key::Key;
use super::section::Section;
use crate::cutting::Fields;
use crate::error::Fault;
use pit_model::Builder;
use pit_num::NoMemory;
use std::alloc::Allocator;

/// What the lines of a model said so far of its header and of its sections.
#[derive(Clone, Copy)]
pub(crate) struct Draft {
    values: [Option<u32>; 7],
    section: Option<Section>,
    seen: [bool; 3],
}

impl Draft {
    ghost use Rattle.pit_text.specs.Inside.Draft.{IsDraft, HasHeader, number_at, missing_key_in};

    pub(crate) fn new() -> Draft
        ensures { IsDraft [] result }
    {
        Draft {
            values: [None; 7],
            section: None,
            seen: [false; 3],
        }
    }

    /// The section that a line stands in.
    pub(crate) fn section(&self) -> Option<Section>
        ensures { result ≡ self.now.section }
    {
        self.section
    }

    /// The value of a key.
    fn value(&self, key: Key) -> Option<u32>
        ensures { result ≡ slice_index_or self.now.values (key_number key) None }
    {
        self.values[key.number()]
    }

    /// The number of a key that has come.
    fn number(&self, key: Key) -> u32
        ensures { result ≡ number_at self.now key }
    {
        self.value(key).unwrap_or(0)
    }

    /// The first needed key that hasn't come.
    pub(crate) fn missing_key(&self) -> Option<Key>
        ensures { result ≡ missing_key_in self.now }
    {
        if self.value(Key::Kind).is_none() {
            return Some(Key::Kind);
        }
        if self.value(Key::Blocks).is_none() {
            return Some(Key::Blocks);
        }
        if self.value(Key::Periods).is_none() {
            return Some(Key::Periods);
        }
        if self.value(Key::Resources).is_none() {
            return Some(Key::Resources);
        }
        if self.value(Key::Rate).is_none() {
            return Some(Key::Rate);
        }
        None
    }

    /// An empty pit of the header's numbers.
    pub(crate) fn builder<A: Allocator + Copy + Drop>(
        &self,
        alloc: A,
    ) -> Result<Builder<A>, NoMemory>
        requires { HasHeader self.now }
        ensures { IfOk result (λ builder. builder ≡ empty_pit (number_at self.now Key.Blocks) (number_at self.now Key.Periods)
            (number_at self.now Key.Resources) (number_at self.now Key.Rate)) }
    {
        Builder::new(
            alloc,
            self.number(Key::Blocks),
            self.number(Key::Periods),
            self.number(Key::Resources),
            self.number(Key::Rate),
        )
    }

    /// A line of the header, by its key and what follows it.
    pub(crate) fn key_line(&mut self, key: Key, mut values: Fields<'_>) -> Result<(), Fault>
        ensures keeps { (facts : List Fact) → IsDraft facts self.old → MatchResult result
            (λ _. (n : ℕ) × (key_line facts key (fields_left values.entry) ≡ Ok (header key n)) × IsDraft (facts ++ header key n ∷ []) self.new)
            (λ cause. key_line facts key (fields_left values.entry) ≡ Err cause) }
        ensures section { self.new.section ≡ self.old.section }
    {
        let (Some(value), None) = (values.next(), values.next()) else {
            return Err(Fault::BadHeader(key));
        };
        if self.value(key).is_some() {
            return Err(Fault::BadHeader(key));
        }
        let n = value_of_key(key, value)?;
        self.values[key.number()] = Some(n);
        Ok(())
    }

    /// A line that begins a section.
    pub(crate) fn start(&mut self, begun: Section) -> Result<(), Fault>
        ensures { (facts : List Fact) → IsDraft facts self.old → MatchResult result
            (λ _. (section_line facts begun ≡ Ok (section begun)) × IsDraft (facts ++ section begun ∷ []) self.new × (missing_key facts ≡ None))
            (λ cause. section_line facts begun ≡ Err cause) }
    {
        if let Some(key) = self.missing_key() {
            return Err(Fault::MissingHeader(key));
        }
        if self.seen[begun.number()] {
            return Err(Fault::SectionTwice);
        }
        self.seen[begun.number()] = true;
        self.section = Some(begun);
        Ok(())
    }
}
