//! The chains of items, each with a number.

ghost use Rattle.std.specs.Prelude.{◌≡◌, ◌≤◌, ◌<◌, ◌↔◌, [], IfOk, IfSome, IsTrue, None, OnOk, Some, length, set, slice_index, vec_capacity};
ghost use Rattle.std.specs.Option.{option_copied};
ghost use Rattle.std.specs.Ordering.{is_eq};
ghost use Rattle.avm_items.specs.Items.{item_cmp};
ghost use Rattle.avm_items.specs.LedgerItems.{at};
ghost use Rattle.mv_chain.specs.Versions.{versions_from};
ghost use Rattle.mv_shards.specs.KeptChains.{AreNumbered, ArePrunedChains, is_of};
ghost use Rattle.mv_shards.specs.Several.{AreListed, numbers_in, room_in, version_counts};

use crate::notes::{MaybeNotes, add_number, make_room_for, note, noted_in};
use crate::number_maps::Numbers;
use crate::slot::slot_of;
use avm_items::{Item, ItemValue, item_of};
use avm_ledger::Ledger;
use mv_chain::Chain;
use std::alloc::{AllocError, Global};
use std::marker::Model;

/// The chains of some items, in the order in which they were made. A chain's number is its index there, and stays.
pub(crate) struct Chains {
    numbers: Numbers,
    list: Vec<(Item, Chain<ItemValue>)>,
    notes: MaybeNotes,
}

/// Written out, so that whoever owns one drops it by one call and not part by part.
impl Drop for Chains {
    #[inline]
    fn drop(self) {
        let Chains {
            numbers: _,
            list: _,
            notes: _,
        } = self;
    }
}

impl Model for Chains {
    ghost use Rattle.avm_items.specs.declared.item_value.ItemValue.{ItemValue};
    ghost use Rattle.mv_shards.specs.KeptChains.{AreNumbered, ChainMap};
    ghost use Rattle.mv_shards.specs.Several.{AreListed, numbers_in, room_in, version_counts};

    ghost Value = { ChainMap ItemValue };

    ghost view = { λ c. c.list.items };

    ghost invariant = { λ c. AreNumbered c.numbers c.list.items
        × AreListed (numbers_in c.notes) (room_in c.notes) (version_counts c.list.items) };
}

impl Chains {
    ghost use Rattle.mv_shards.specs.KeptChains.{AreChains, IsGrown, IsInstalled, IsMarked, IsReadableAt, IsRoomier, HasRoomFor, TakesVersionAt, chain_in, number_in, versions_of};

    /// No chains. It takes no memory.
    pub(crate) fn new(alloc: Global) -> Chains
        ensures { result ≡ [] }
    {
        Chains {
            numbers: Numbers::new(alloc),
            list: Vec::new(alloc),
            notes: None,
        }
    }

    /// The number of an item's chain.
    fn find(&self, item: &Item) -> Option<usize>
        ensures { result ≡ number_in self.now item.now }
    {
        match self.noted(item, slot_of(item)) {
            Some(number) => Some(number),
            None => self.number_of(item),
        }
    }

    /// The number of an item's chain, if it is noted in this slot.
    fn noted(&self, item: &Item, slot: usize) -> Option<usize>
        ensures { IfSome result (λ number. number_in self.now item.now ≡ Some number) }
    {
        let number = noted_in(&self.notes, slot);
        if has_item(&self.list, number, item) {
            Some(number)
        } else {
            None
        }
    }

    /// The number of an item's chain, looked up.
    fn number_of(&self, item: &Item) -> Option<usize>
        ensures { result ≡ number_in self.now item.now }
    {
        match self.numbers.by_mix(item) {
            Some(number) if has_item(&self.list, number, item) => Some(number),
            _ => self.numbers.by_item(item),
        }
    }

    /// An item's chain.
    pub(crate) fn get(&self, item: &Item) -> Option<&Chain<ItemValue>>
        ensures { option_copied result ≡ chain_in self.now item.now }
    {
        match self.find(item) {
            Some(number) => Some(&self.list[number].1),
            None => None,
        }
    }

    /// The chain of a number.
    pub(crate) fn at(&self, number: usize) -> &Chain<ItemValue>
        requires { number < length self.now }
        ensures { (item : _)
            → number_in self.now item ≡ Some number → chain_in self.now item ≡ Some result.now }
    {
        &self.list[number].1
    }

    /// The number of an item's chain. Where it has none, one is made of what it is in a ledger, and no versions change.
    pub(crate) fn find_or_make(
        &mut self,
        alloc: Global,
        base: &Ledger,
        item: &Item,
    ) -> Result<usize, AllocError>
        ensures grown { IsGrown (at base.now) self.old self.new }
        ensures roomier { OnOk result (IsRoomier self.old self.new) }
        ensures number { IfOk result (λ number. number_in self.new item.now ≡ Some number) }
    {
        let slot = slot_of(item);
        match self.noted(item, slot) {
            Some(number) => Ok(number),
            None => self.look_up_or_make(alloc, base, item, slot),
        }
    }

    /// The same, looked up, and noted in a slot. It is out of line, since most items are noted.
    #[inline(never)]
    fn look_up_or_make(
        &mut self,
        alloc: Global,
        base: &Ledger,
        item: &Item,
        slot: usize,
    ) -> Result<usize, AllocError>
        ensures grown { IsGrown (at base.now) self.old self.new }
        ensures roomier { OnOk result (IsRoomier self.old self.new) }
        ensures number { IfOk result (λ number. number_in self.new item.now ≡ Some number) }
    {
        match self.number_of(item) {
            Some(number) => {
                note(&mut self.notes, slot, number);
                Ok(number)
            }
            None => self.make(alloc, base, item, slot),
        }
    }

    /// Makes a chain for an item that has none, of what it is in a ledger.
    fn make(
        &mut self,
        alloc: Global,
        base: &Ledger,
        item: &Item,
        slot: usize,
    ) -> Result<usize, AllocError>
        requires { number_in self.old item.now ≡ None }
        ensures grown { IsGrown (at base.now) self.old self.new }
        ensures roomier { OnOk result (IsRoomier self.old self.new) }
        ensures number { IfOk result (λ number. number_in self.new item.now ≡ Some number) }
    {
        let chain = Chain::new(alloc, item_of(base, item)?);
        self.list.reserve(1)?;
        let number = self.list.len();
        make_room_for(alloc, &mut self.notes, number + 1)?;
        self.numbers.add(item, number)?;
        self.list.push_reserved((item.copied(), chain));
        note(&mut self.notes, slot, number);
        Ok(number)
    }

    /// Makes room in the chain of a number for one more version.
    pub(crate) fn reserve(&mut self, number: usize) -> Result<(), AllocError>
        requires { number < length self.old }
        ensures grown { (value_of : _) → IsGrown value_of self.old self.new }
        ensures roomier { OnOk result (IsRoomier self.old self.new) }
        ensures room { OnOk result ((item : _)
            → number_in self.old item ≡ Some number → HasRoomFor self.new item) }
    {
        self.list[number].1.reserve()
    }

    /// Notes that the newest version of a number's chain not above a timestamp was read at it.
    pub(crate) fn mark(&mut self, number: usize, timestamp: u64)
        requires readable { IsReadableAt timestamp self.old number }
        requires positive { 0 < timestamp }
        ensures { (item : _)
            → number_in self.old item ≡ Some number → IsMarked timestamp item self.old self.new }
    {
        self.list[number].1.mark(timestamp);
    }

    /// Adds a version to the chain of a number, which takes it.
    pub(crate) fn install(&mut self, number: usize, value: ItemValue, timestamp: u64)
        requires takes { TakesVersionAt timestamp self.old number }
        requires positive { 0 < timestamp }
        ensures { (item : _) → number_in self.old item ≡ Some number
            → IsInstalled timestamp item value self.old self.new }
    {
        add_if_single(&self.list, &mut self.notes, number);
        let _ = self.list[number].1.install(timestamp, value);
    }

    /// Drops the versions that no read from a timestamp on can find. It goes through the chains alone that have more than one.
    pub(crate) fn prune(&mut self, timestamp: u64)
        ensures versions { (first : _) (x : _) → versions_of first self.new x
            ≡ versions_from timestamp (versions_of first self.old x) }
        ensures kept { (first : _) (low : _)
            → low ≤ timestamp → AreChains first low self.old → AreChains first timestamp self.new }
    {
        prune_noted(&mut self.list, &mut self.notes, timestamp);
    }
}

/// Notes the number of a chain that is to be given a version, if it has one alone.
fn add_if_single(list: &[(Item, Chain<ItemValue>)], notes: &mut MaybeNotes, number: usize)
    requires within { number < length list.now }
    requires listed { AreListed (numbers_in notes.old) (room_in notes.old)
        (version_counts list.now) }
    ensures listed { (count : _) → 1 < count → AreListed (numbers_in notes.new)
        (room_in notes.new) (set (version_counts list.now) number count) }
    ensures some { 0 < slice_index (version_counts list.now) number }
{
    if list[number].1.count() == 1 {
        add_number(notes, number);
    }
}

/// Drops the versions that no read from a timestamp on can find, in the chains that are noted as having more than one.
fn prune_noted(list: &mut Vec<(Item, Chain<ItemValue>)>, notes: &mut MaybeNotes, timestamp: u64)
    requires { AreListed (numbers_in notes.old) (room_in notes.old)
        (version_counts list.old.items) }
    ensures listed { AreListed (numbers_in notes.new) (room_in notes.new)
        (version_counts list.new.items) }
    ensures pruned { ArePrunedChains timestamp list.old.items list.new.items }
    ensures numbered { (noted : _)
        → AreNumbered noted list.old.items → AreNumbered noted list.new.items }
{
    match notes {
        Some(notes) => prune_several(list, &mut notes.several, timestamp),
        None => {}
    }
}

/// Drops the versions that no read from a timestamp on can find, in the chains that have more than one. The numbers stay of those
/// that still have.
fn prune_several(list: &mut Vec<(Item, Chain<ItemValue>)>, several: &mut Vec<usize>, timestamp: u64)
    requires { AreListed several.old.items (vec_capacity several.old)
        (version_counts list.old.items) }
    ensures listed { AreListed several.new.items (vec_capacity several.new)
        (version_counts list.new.items) }
    ensures pruned { ArePrunedChains timestamp list.old.items list.new.items }
    ensures numbered { (noted : _)
        → AreNumbered noted list.old.items → AreNumbered noted list.new.items }
{
    let mut kept = 0;
    for index in 0..several.len() {
        let number = several[index];
        if prune_chain(&mut list[number].1, timestamp) {
            several[kept] = number;
            kept += 1;
        }
    }
    several.truncate(kept);
}

/// Drops the versions that no read from a timestamp on can find. Whether more than one is left. Most items are written once, and
/// their room is given back.
fn prune_chain(chain: &mut Chain<ItemValue>, timestamp: u64) -> bool
    ensures list { chain.new.list ≡ versions_from timestamp chain.old.list }
    ensures several { IsTrue result ↔ 1 < length chain.new.list }
{
    chain.prune(timestamp);
    chain.give_back_room();
    chain.count() > 1
}

/// Whether the chain of a number, if there is one, is an item's.
fn has_item(list: &[(Item, Chain<ItemValue>)], number: usize, item: &Item) -> bool
    ensures { result ≡ is_of list.now number item.now }
{
    number < list.len() && is_item(item, &list[number].0)
}

/// Whether two items are the same.
fn is_item(item: &Item, other: &Item) -> bool
    ensures { result ≡ is_eq (item_cmp item.now other.now) }
{
    *item == *other
}
