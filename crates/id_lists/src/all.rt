ghost use Rattle.std.specs.Prelude.{◌≡◌, ◌+◌, ◌<◌, ◌^◌, length, IfOk, OnOk, OnErr};

use crate::linking;
use crate::links::Links;
use fizz_text::OutOfMemory;
use std::alloc::Global;
use std::marker::Model;

/// Lists of ids, each of which stands in one of them at most. Lists and ids are numbered in the order in which they were
/// made. No call but `reserve` takes memory, and each other call takes constant time.
#[derive(Debug, Drop)]
pub struct IdLists {
    links: Links,
    spare_lists: u32,
    spare_ids: u32,
}

impl Model for IdLists {
    ghost use Rattle.id_lists.specs.Lists.{Lists};
    ghost use Rattle.id_lists.specs.Linked.{AreKept, all_in};

    ghost Value = { Lists };

    ghost view = { λ l. all_in l.links l.spare_lists l.spare_ids };

    ghost invariant = { λ l. AreKept l.links l.spare_lists l.spare_ids };
}

impl IdLists {
    ghost use Rattle.id_lists.specs.Lists.{AreLists, first_of, home_of, list_at, next_of, times_in_all};
    ghost use Rattle.id_lists.specs.Calls.{CanPush, no_lists, reserved, with_id, with_list, with_pushed, without};

    /// No list and no id.
    pub fn new(alloc: Global) -> IdLists
        ensures empty { result ≡ no_lists }
        ensures lists { AreLists result }
    {
        IdLists {
            links: linking::no_links(alloc),
            spare_lists: 0,
            spare_ids: 0,
        }
    }

    /// Makes room for at least so many lists and ids more.
    pub fn reserve(&mut self, lists: u32, ids: u32) -> Result<(), OutOfMemory>
        requires lists { length self.old.lists + lists < 2 ^ 32 }
        requires ids { self.old.ids + ids < 2 ^ 32 }
        ensures ok { OnOk result (self.new ≡ reserved lists ids self.old) }
        ensures err { OnErr result (self.new ≡ self.old) }
        ensures lists { AreLists self.new }
    {
        linking::reserve(&mut self.links, lists as usize, ids as usize)?;
        self.spare_lists = self.spare_lists.max(lists);
        self.spare_ids = self.spare_ids.max(ids);
        Ok(())
    }

    /// How many lists can be made without memory.
    pub fn spare_lists(&self) -> u32
        ensures { result ≡ self.now.spare_lists }
    {
        self.spare_lists
    }

    /// How many ids can be made without memory.
    pub fn spare_ids(&self) -> u32
        ensures { result ≡ self.now.spare_ids }
    {
        self.spare_ids
    }

    /// How many lists were made: the number that the next one gets.
    pub fn list_count(&self) -> u32
        ensures count { result ≡ length self.now.lists }
        ensures lists { AreLists self.now }
    {
        self.links.first.len() as u32
    }

    /// How many ids were made: the number that the next one gets.
    pub fn id_count(&self) -> u32
        ensures count { result ≡ self.now.ids }
        ensures lists { AreLists self.now }
    {
        self.links.next.len() as u32
    }

    /// Makes an empty list.
    pub fn add_list(&mut self) -> u32
        requires { 0 < self.old.spare_lists }
        ensures number { result ≡ length self.old.lists }
        ensures added { self.new ≡ with_list self.old }
        ensures lists { AreLists self.new }
    {
        let list = self.links.first.len() as u32;
        linking::add_list(&mut self.links);
        self.spare_lists -= 1;
        list
    }

    /// Makes an id, which stands in no list.
    pub fn add_id(&mut self) -> u32
        requires { 0 < self.old.spare_ids }
        ensures number { result ≡ self.old.ids }
        ensures free { times_in_all result self.old.lists ≡ 0 }
        ensures added { self.new ≡ with_id self.old }
        ensures lists { AreLists self.new }
    {
        let id = self.links.next.len() as u32;
        linking::add_id(&mut self.links);
        self.spare_ids -= 1;
        id
    }

    /// Makes an id that stands in no list the last of one.
    pub fn push(&mut self, list: u32, id: u32)
        requires { CanPush list id self.old }
        ensures pushed { self.new ≡ record self.old { lists = with_pushed list id self.old.lists } }
        ensures lists { AreLists self.new }
    {
        linking::append(&mut self.links, list, id);
    }

    /// Takes an id out of the list in which it stands, if there is one. The others keep their order.
    pub fn remove(&mut self, id: u32)
        ensures removed { self.new ≡ record self.old { lists = without id self.old.lists } }
        ensures lists { AreLists self.new }
    {
        linking::remove(&mut self.links, id);
    }

    /// The first of a list. `None` exactly where the list is empty, or was never made.
    pub fn first(&self, list: u32) -> Option<u32>
        ensures { result ≡ first_of (list_at self.now.lists list) }
    {
        linking::first(&self.links, list)
    }

    /// The id after this one in its list. `None` exactly where it is the last, or stands in no list.
    pub fn next(&self, id: u32) -> Option<u32>
        ensures { result ≡ next_of id self.now.lists }
    {
        linking::next(&self.links, id)
    }

    /// The list in which an id stands. `None` exactly where it stands in none.
    pub fn list_of(&self, id: u32) -> Option<u32>
        ensures { result ≡ home_of id self.now.lists }
    {
        linking::home(&self.links, id)
    }

    /// The same lists, with as much room.
    pub fn copy(&self, alloc: Global) -> Result<IdLists, OutOfMemory>
        ensures { IfOk result (λ copy. copy ≡ self.now) }
    {
        let links = linking::copy_links(
            alloc,
            &self.links,
            self.spare_lists as usize,
            self.spare_ids as usize,
        )?;
        Ok(IdLists {
            links,
            spare_lists: self.spare_lists,
            spare_ids: self.spare_ids,
        })
    }
}
