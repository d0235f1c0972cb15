ghost use Rattle.std.specs.Prelude.{◌≡◌, ◌↔◌, ◌≤◌, ◌<◌, ◌+◌, [], ◌∷◌, ◌++◌, length, slice_set, IfOk, OnOk, OnErr, IsTrue};
ghost use Rattle.linkarena.specs.Lists.{list_at, node_count, first_id, last_id, IsLive, StandsOnce, AtItsPlace};

use crate::fault::AddFault;
use crate::ids::{ListId, NodeId};
use crate::links::{Ends, Links, Node};
use prunum::Memory;
use slab::Slab;
use std::alloc::Global;
use std::marker::Model;

/// How many nodes an arena may have at once.
pub const MOST_NODES: usize = 1_048_576;

/// How many lists an arena may have.
pub const MOST_LISTS: usize = 65_536;

/// Lists of values. Each value stands in a node, whose id stays the same while the node moves.
#[derive(Drop)]
pub struct Arena<T> {
    links: Links<T>,
    // how many pushes were promised to need no memory
    spare: usize,
}

impl<T> Model for Arena<T> {
    ghost use Rattle.linkarena.specs.Lists.{Lists, lists_code};

    ghost Value = { Lists T };

    ghost coded = { lists_code T.code };

    ghost use Rattle.linkarena.specs.Links.{store_of, lists_of, Holds, HasRoom};

    ghost view = { λ a. record {
      lists = lists_of (store_of a.links);
      spare = a.spare;
    } };

    ghost invariant = { λ a. Holds (store_of a.links) (lists_of (store_of a.links)) × HasRoom a.links.nodes a.spare };
}

impl<T> Arena<T> {
    ghost use Rattle.linkarena.specs.Added.{Refuses};
    ghost use Rattle.linkarena.specs.Links.{IsGap};

    /// An arena without a list, which has taken no memory.
    pub fn new(alloc: Global) -> Arena<T>
        ensures { result ≡ record { lists = []; spare = 0 } }
    {
        Arena {
            links: Links {
                nodes: Slab::new(alloc),
                ends: Vec::new(alloc),
            },
            spare: 0,
        }
    }

    /// Makes room, so that so many pushes need no memory.
    pub fn reserve(&mut self, n: usize) -> Result<(), Memory>
        requires { n ≤ MOST_NODES }
        ensures room { OnOk result (n ≤ self.new.spare) }
        ensures lists { self.new.lists ≡ self.old.lists }
        ensures spare { self.old.spare ≤ self.new.spare }
        ensures err { OnErr result (self.new ≡ self.old) }
    {
        self.links.nodes.reserve(n)?;
        self.spare = self.spare.max(n);
        Ok(())
    }

    /// Adds an empty list.
    pub fn add_list(&mut self) -> Result<ListId, Memory>
        requires { length self.old.lists < MOST_LISTS }
        ensures id { IfOk result (λ list. list ≡ length self.old.lists) }
        ensures added { OnOk result (self.new ≡ record self.old { lists = self.old.lists ++ [] ∷ [] }) }
        ensures err { OnErr result (self.new ≡ self.old) }
    {
        let index = self.links.ends.len();
        self.links.ends.push(Ends {
            first: None,
            last: None,
        })?;
        Ok(ListId { index })
    }

    /// The number of lists.
    pub fn lists(&self) -> usize
        ensures { result ≡ length self.now.lists }
    {
        self.links.ends.len()
    }

    /// The number of nodes in all lists.
    pub fn count(&self) -> usize
        ensures { result ≡ node_count self.now.lists }
    {
        self.links.nodes.len()
    }

    /// Whether a node with this id is in one of the lists.
    pub fn is_live(&self, node: NodeId) -> bool
        ensures live { IsTrue result ↔ IsLive self.now.lists node }

        // An id stands at one place alone.
        ensures once { StandsOnce self.now.lists }
    {
        self.links.nodes.contains(node.key)
    }

    /// The first node of a list.
    pub fn first(&self, list: ListId) -> Option<NodeId>
        requires { list < length self.now.lists }
        ensures { result ≡ first_id (list_at self.now.lists list) }
    {
        node_id(self.links.ends[list.index].first)
    }

    /// The node behind a node.
    pub fn next(&self, node: NodeId) -> Option<NodeId>
        requires { IsLive self.now.lists node }
        ensures { AtItsPlace self.now.lists node (λ _ _ _ back. result ≡ first_id back) }
    {
        node_id(self.links.nodes[node.key].next)
    }

    /// The node before a node.
    pub fn prev(&self, node: NodeId) -> Option<NodeId>
        requires { IsLive self.now.lists node }
        ensures { AtItsPlace self.now.lists node (λ _ front _ _. result ≡ last_id front) }
    {
        node_id(self.links.nodes[node.key].prev)
    }

    pub fn get(&self, node: NodeId) -> &T
        requires { IsLive self.now.lists node }
        ensures { AtItsPlace self.now.lists node (λ _ _ value _. result.now ≡ value) }
    {
        &self.links.nodes[node.key].value
    }

    /// Gives a node another value, and answers the old one.
    pub fn set(&mut self, node: NodeId, value: T) -> T
        requires { IsLive self.old.lists node }
        ensures old { AtItsPlace self.old.lists node (λ _ _ here _. result ≡ here) }
        ensures set { AtItsPlace self.old.lists node (λ list front _ back. self.new.lists
            ≡ slice_set self.old.lists list (front ++ (node, value) ∷ back)) }
        ensures spare { self.new.spare ≡ self.old.spare }
    {
        self.links.set_value(node.key, value)
    }

    /// Puts a value last in a list.
    pub fn push_back(&mut self, list: ListId, value: T) -> Result<NodeId, AddFault<T>>
        requires { list < length self.old.lists }
        ensures added { IfOk result (λ node. self.new.lists ≡ slice_set self.old.lists list
            (list_at self.old.lists list ++ (node, value) ∷ [])) }
        ensures fresh { IfOk result (λ node. ¬ IsLive self.old.lists node) }
        ensures refuses { Refuses self.old self.new value result }
    {
        let last = self.links.last(list.index);
        self.insert(list.index, last, None, value)
    }

    /// Puts a value behind a node.
    pub fn insert_after(&mut self, node: NodeId, value: T) -> Result<NodeId, AddFault<T>>
        requires { IsLive self.old.lists node }
        ensures added { IfOk result (λ new. AtItsPlace self.old.lists node (λ list front here back.
            self.new.lists ≡ slice_set self.old.lists list (front ++ (node, here) ∷ (new, value) ∷ back))) }
        ensures fresh { IfOk result (λ new. ¬ IsLive self.old.lists new) }
        ensures refuses { Refuses self.old self.new value result }
    {
        let before = &self.links.nodes[node.key];
        let (list, next) = (before.list, before.next);
        self.insert(list, Some(node.key), next, value)
    }

    /// Takes a node out. Its id may be given again.
    pub fn unlink(&mut self, node: NodeId) -> T
        requires { IsLive self.old.lists node }
        ensures value { AtItsPlace self.old.lists node (λ _ _ value _. result ≡ value) }
        ensures out { AtItsPlace self.old.lists node (λ list front _ back. self.new.lists ≡ slice_set self.old.lists list (front ++ back)) }
        ensures spare { self.new.spare ≡ self.old.spare + 1 }
    {
        self.links.take_out(node.key);
        let value = self.links.nodes.remove(node.key).value;
        self.spare += 1;
        value
    }

    /// Makes a node the last of a list. It keeps its id.
    pub fn move_to(&mut self, node: NodeId, list: ListId)
        requires node { IsLive self.old.lists node }
        requires list { list < length self.old.lists }
        ensures moved { AtItsPlace self.old.lists node (λ from front value back.
            let rest = slice_set self.old.lists from (front ++ back) in
            self.new.lists ≡ slice_set rest list (list_at rest list ++ (node, value) ∷ [])) }
        ensures spare { self.new.spare ≡ self.old.spare }
    {
        self.links.take_out(node.key);
        self.links.set_list(node.key, list.index);
        let last = self.links.last(list.index);
        self.links.put_in(node.key, list.index, last, None);
    }

    // Puts a value into a list, between two places that follow each other.
    fn insert(
        &mut self,
        list: usize,
        prev: Option<usize>,
        next: Option<usize>,
        value: T,
    ) -> Result<NodeId, AddFault<T>>
        requires { IsGap self.old.lists list prev next }
        ensures added { IfOk result (λ node. (front back : _) → list_at self.old.lists list ≡ front ++ back → prev ≡ last_id front
            → next ≡ first_id back
            → self.new.lists ≡ slice_set self.old.lists list (front ++ (node, value) ∷ back)) }
        ensures fresh { IfOk result (λ node. ¬ IsLive self.old.lists node) }
        ensures refuses { Refuses self.old self.new value result }
    {
        if self.links.nodes.len() == MOST_NODES {
            return Err(AddFault::Full(value));
        }
        if self.links.nodes.reserve(1).is_err() {
            return Err(AddFault::Memory(value));
        }
        let key = self.links.nodes.insert_reserved(Node {
            list,
            prev: None,
            next: None,
            value,
        });
        self.links.put_in(key, list, prev, next);
        self.spare = self.spare.saturating_sub(1);
        Ok(NodeId { key })
    }
}

fn node_id(key: Option<usize>) -> Option<NodeId>
    ensures { result ≡ key }
{
    key.map(|key| NodeId { key })
}
