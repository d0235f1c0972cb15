ghost use Rattle.std.specs.Prelude.{◌≡◌, ◌<◌, Some, None, IfSome, vec_len};
ghost use Rattle.std.specs.Option.{ForSome};
ghost use Rattle.slab.specs.Slab.{ContainsKey, get};

use slab::Slab;
use std::mem;

/// A node, with the keys of those before and behind it in its list.
#[derive(Drop)]
pub struct Node<T> {
    pub list: usize,
    pub prev: Option<usize>,
    pub next: Option<usize>,
    pub value: T,
}

/// The keys of a list's first and last nodes.
#[derive(Clone, Copy)]
pub struct Ends {
    pub first: Option<usize>,
    pub last: Option<usize>,
}

/// All nodes under their keys, and the ends of each list.
#[derive(Drop)]
pub struct Links<T> {
    pub nodes: Slab<Node<T>>,
    pub ends: Vec<Ends>,
}

impl<T> Links<T> {
    ghost use Rattle.linkarena.specs.Links.{store_of, next_set, prev_set, joined, prev_at, taken, put, changed_at, CanJoin, CanTake};
    ghost use Rattle.linkarena.specs.declared.links.Node.{Node};

    // Says what is behind a place of a list, where `None` is the place before all of it.
    fn set_next(&mut self, list: usize, prev: Option<usize>, next: Option<usize>)
        requires list { list < vec_len self.old.ends }
        requires prev { ForSome prev (ContainsKey self.old.nodes) }
        ensures { store_of self.new ≡ next_set (store_of self.old) list prev next }
    {
        match prev {
            Some(key) => self.nodes[key].next = next,
            None => self.ends[list].first = next,
        }
    }

    // Says what is before a place of a list, where `None` is the place behind all of it.
    fn set_prev(&mut self, list: usize, next: Option<usize>, prev: Option<usize>)
        requires list { list < vec_len self.old.ends }
        requires next { ForSome next (ContainsKey self.old.nodes) }
        ensures { store_of self.new ≡ prev_set (store_of self.old) list next prev }
    {
        match next {
            Some(key) => self.nodes[key].prev = prev,
            None => self.ends[list].last = prev,
        }
    }

    /// The key of a list's last node.
    pub fn last(&self, list: usize) -> Option<usize>
        requires { list < vec_len self.now.ends }
        ensures { result ≡ prev_at (store_of self.now) list None }
    {
        self.ends[list].last
    }

    // Makes `next` the place behind `prev` in a list.
    fn join(&mut self, list: usize, prev: Option<usize>, next: Option<usize>)
        requires { CanJoin (store_of self.old) list prev next }
        ensures { store_of self.new ≡ joined (store_of self.old) list prev next }
    {
        self.set_next(list, prev, next);
        self.set_prev(list, next, prev);
    }

    /// Takes a node out of its list. It keeps its key.
    pub fn take_out(&mut self, key: usize)
        requires { CanTake (store_of self.old) key }
        ensures { store_of self.new ≡ taken (store_of self.old) key }
    {
        let node = &self.nodes[key];
        let (list, prev, next) = (node.list, node.prev, node.next);
        self.join(list, prev, next);
    }

    /// Puts a node that is in no list between two places of one.
    pub fn put_in(&mut self, key: usize, list: usize, prev: Option<usize>, next: Option<usize>)
        requires before { CanJoin (store_of self.old) list prev (Some key) }
        requires behind { CanJoin (joined (store_of self.old) list prev (Some key)) list (Some key) next }
        ensures { store_of self.new ≡ put (store_of self.old) key list prev next }
    {
        self.join(list, prev, Some(key));
        self.join(list, Some(key), next);
    }

    /// Says that a node belongs to another list.
    pub fn set_list(&mut self, key: usize, list: usize)
        requires { ContainsKey self.old.nodes key }
        ensures { store_of self.new ≡ record (store_of self.old)
            { nodes = changed_at self.old.nodes key (λ node. record node { list = list }) } }
    {
        self.nodes[key].list = list;
    }

    /// Gives a node another value, and answers the old one.
    pub fn set_value(&mut self, key: usize, value: T) -> T
        requires { ContainsKey self.old.nodes key }
        ensures old { IfSome (get self.old.nodes key) (λ node. node.value ≡ result) }
        ensures set { store_of self.new ≡ record (store_of self.old)
            { nodes = changed_at self.old.nodes key (λ node. record node { value = value }) } }
    {
        mem::replace(&mut self.nodes[key].value, value)
    }
}
