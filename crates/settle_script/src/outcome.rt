//! What settlements make known.

ghost use Rattle.std.specs.Prelude.{◌≡◌, ◌+◌, ◌<◌, ◌^◌, ◌++◌, ◌∷◌, [], length, is_some, None, IfOk, IfErr, OnOk, OnErr};
ghost use Rattle.std.specs.Option.{option_copied, option_to_list};
ghost use Rattle.settle_script.specs.Settlements.{HasDistinctNames, first_common as common_name};

use crate::fault::JoinFault;
use crate::value::{Entry, Value};
use fizz_text::{OutOfMemory, Text};
use std::alloc::Global;
use std::collections::BTreeMap;
use std::marker::Model;

/// What a resource came to: a value, or a failure with its digest.
#[derive(Debug, Drop)]
pub enum Outcome {
    Resolved(Value),
    Rejected(Text),
}

impl Outcome {
    /// An equal outcome.
    pub fn copy(&self, alloc: Global) -> Result<Outcome, OutOfMemory>
        ensures { IfOk result (λ outcome. outcome ≡ self.now) }
    {
        match self {
            Outcome::Resolved(value) => Ok(Outcome::Resolved(value.copy(alloc)?)),
            Outcome::Rejected(digest) => Ok(Outcome::Rejected(digest.copy(alloc)?)),
        }
    }
}

/// The settlements of a script in the order of its lines, each name once. Contracts see them as a list. The index
/// finds the place of a name in logarithmic time.
#[derive(Drop)]
pub struct Outcomes {
    entries: Vec<Entry<Outcome>>,
    index: BTreeMap<String, u32>,
}

impl Model for Outcomes {
    ghost use Rattle.std.specs.Prelude.{List};
    ghost use Rattle.settle_script.specs.declared.value.Entry.{Entry};
    ghost use Rattle.settle_script.specs.declared.outcome.Outcome.{Outcome};
    ghost use Rattle.std.specs.Coded.{codes};
    ghost use Rattle.settle_script.specs.contracts.value.Value as value;

    ghost Value = { List (Entry Outcome) };

    ghost coded = { Prim.hlevel (codes, value.the_row.coded) };

    ghost use Rattle.settle_script.specs.Index.{IsIndexOf};

    ghost view = { λ o. o.entries.items };

    ghost invariant = { λ o. IsIndexOf o.index o.entries.items };
}

impl Outcomes {
    ghost use Rattle.settle_script.specs.Settlements.{entry_named, known, name_at, IsFirstCommon, IsNew};
    ghost use Rattle.settle_script.specs.Index.{place_of};

    /// No settlement.
    pub fn new(alloc: Global) -> Outcomes
        ensures { result ≡ [] }
    {
        Outcomes {
            entries: Vec::new(alloc),
            index: BTreeMap::new(alloc),
        }
    }

    /// How many settlements there are.
    pub fn len(&self) -> u32
        ensures count { result ≡ length self.now }
        ensures distinct { HasDistinctNames self.now }
    {
        self.entries.len() as u32
    }

    /// What the first `settled` settlements make known of the resource.
    pub fn get(&self, name: &Text, settled: u32) -> Option<&Outcome>
        ensures { option_copied result ≡ known self.now settled name.now }
    {
        match self.place(name) {
            Some(place) if place < settled => {
                let entries = self.entries.as_slice();
                Some(&entries[place as usize].value)
            },
            _ => None,
        }
    }

    /// The resource of the settlement at a place, from 0.
    pub fn name_at(&self, place: u32) -> Option<&Text>
        ensures { option_copied result ≡ name_at self.now place }
    {
        match self.entries.as_slice().get(place as usize) {
            Some(entry) => Some(&entry.name),
            None => None,
        }
    }

    /// The place of the name in the list.
    fn place(&self, name: &Text) -> Option<u32>
        ensures { result ≡ place_of name.now self.now }
    {
        self.index.get(name.as_str()).copied()
    }

    /// Whether the resource is settled.
    pub(crate) fn contains(&self, name: &Text) -> bool
        ensures { result ≡ is_some (entry_named name.now self.now) }
    {
        self.place(name).is_some()
    }

    /// Adds a settlement at the end. A refusal leaves the list as it was.
    pub(crate) fn push(
        &mut self,
        alloc: Global,
        settlement: Entry<Outcome>,
    ) -> Result<(), OutOfMemory>
        requires new { entry_named settlement.name self.old ≡ None }
        requires few { length self.old + 1 < 2 ^ 32 }
        ensures ok { OnOk result (self.new ≡ self.old ++ settlement ∷ []) }
        ensures err { OnErr result (self.new ≡ self.old) }
    {
        self.entries.reserve(1)?;
        let place = self.entries.as_slice().len() as u32;
        let key = String::from_str(alloc, settlement.name.as_str())?;
        self.index.insert(key, place)?;
        self.entries.push(settlement).unwrap();
        Ok(())
    }

    /// The same, if there is a settlement.
    pub(crate) fn settle(
        &mut self,
        alloc: Global,
        settlement: Option<Entry<Outcome>>,
    ) -> Result<(), OutOfMemory>
        requires new { IsNew settlement self.old }
        requires few { length self.old + 1 < 2 ^ 32 }
        ensures ok { OnOk result (self.new ≡ self.old ++ option_to_list settlement) }
        ensures err { OnErr result (self.new ≡ self.old) }
    {
        match settlement {
            Some(settlement) => self.push(alloc, settlement),
            None => Ok(()),
        }
    }

    /// These settlements and then the others. Refused where both settle a name; the first such name of the later ones
    /// is answered.
    pub fn joined(&self, alloc: Global, more: &Outcomes) -> Result<Outcomes, JoinFault>
        requires { length self.now + length more.now < 2 ^ 32 }
        ensures accepted { IfOk result (λ all. all ≡ self.now ++ more.now) }
        ensures refused { IfErr result (IsFirstCommon self.now more.now) }
    {
        if let Some(name) = first_common(self, more.entries.as_slice()) {
            return Err(JoinFault::AlreadySettled {
                name: name.copy(alloc)?,
            });
        }
        let mut all = Outcomes::new(alloc);
        all.append(alloc, self.entries.as_slice())?;
        all.append(alloc, more.entries.as_slice())?;
        Ok(all)
    }

    /// Adds copies of settlements at the end.
    fn append(&mut self, alloc: Global, more: &[Entry<Outcome>]) -> Result<(), OutOfMemory>
        requires distinct { HasDistinctNames (self.old ++ more.now) }
        requires few { length self.old + length more.now < 2 ^ 32 }
        ensures { OnOk result (self.new ≡ self.old ++ more.now) }
    {
        for settlement in more {
            let copy = Entry {
                name: settlement.name.copy(alloc)?,
                value: settlement.value.copy(alloc)?,
            };
            self.push(alloc, copy)?;
        }
        Ok(())
    }
}

/// The first name of the later settlements that the earlier ones have too.
fn first_common<'a>(outcomes: &Outcomes, more: &'a [Entry<Outcome>]) -> Option<&'a Text>
    ensures { option_copied result ≡ common_name outcomes.now more.now }
{
    for settlement in more {
        if outcomes.contains(&settlement.name) {
            return Some(&settlement.name);
        }
    }
    None
}
