ghost use Rattle.std.specs.Prelude.{◌≡◌, ◌+◌, ◌<◌, [], ◌∷◌, ◌++◌, length, not, IsTrue, IfOk, IfSome, OnOk, OnErr};
ghost use Rattle.linkarena.specs.Lists.{first_id};
ghost use Rattle.midcode.specs.Operation.{is_value, parameters};
ghost use Rattle.midcode.specs.Function.{fits, kinds, stands, MayFollow, IsPushed, IsNode, AtNode, IsValidFunction};

use crate::op::Op;
use crate::register::{Label, VReg};
use crate::signature::Signature;
use linkarena::{AddFault, Arena, ListId, NodeId};
use prunum::{Memory, Width};
use std::alloc::Global;
use std::marker::Model;

/// How many operations a function may have, and how many virtual registers.
pub const MOST: usize = 1_048_576;

/// A function: its operations in order, over its virtual registers and labels. It is always valid: what its operations name is its
/// own and has the widths that they ask for, and no label stands twice.
#[derive(Drop)]
pub struct MidFn {
    signature: Signature,
    registers: Vec<Width>,
    labels: u32,
    ops: Arena<Op>,
    list: ListId,
}

impl Model for MidFn {
    ghost use Rattle.std.specs.Prelude.{◌≡◌, [], ◌∷◌};
    ghost use Rattle.linkarena.specs.Lists.{list_at};
    ghost use Rattle.midcode.specs.Function.{Function, IsValidFunction};

    ghost Value = { Function };

    ghost view = { λ f. record {
      signature = f.signature;
      registers = f.registers.items;
      labels = f.labels;
      nodes = list_at f.ops.lists f.list;
    } };

    ghost invariant = { λ f. (f.ops.lists ≡ list_at f.ops.lists f.list ∷ []) × (f.list ≡ 0) × IsValidFunction (record {
      signature = f.signature;
      registers = f.registers.items;
      labels = f.labels;
      nodes = list_at f.ops.lists f.list;
    }) };
}

impl MidFn {
    /// A function without operations and labels, whose registers are its parameters.
    pub fn new(alloc: Global, signature: Signature) -> Result<MidFn, Memory>
        ensures { IfOk result (λ f. f ≡ record { signature = signature; registers = parameters signature; labels = 0; nodes = [] }) }
    {
        let mut ops = Arena::new(alloc);
        let list = ops.add_list()?;
        let registers = Vec::from_slice(alloc, &signature.params[..signature.count as usize])?;
        Ok(MidFn {
            signature,
            registers,
            labels: 0,
            ops,
            list,
        })
    }

    pub fn signature(&self) -> &Signature
        ensures { result.now ≡ self.now.signature }
    {
        &self.signature
    }

    /// The widths of the virtual registers, by their numbers.
    pub fn registers(&self) -> &[Width]
        ensures { result.now ≡ self.now.registers }
    {
        self.registers.as_slice()
    }

    /// The number of labels.
    pub fn labels(&self) -> u32
        ensures { result ≡ self.now.labels }
    {
        self.labels
    }

    /// The arena of its operations.
    pub fn ops(&self) -> &Arena<Op>
        ensures value { result.now.lists ≡ self.now.nodes ∷ [] }

        // The function is valid.
        ensures valid { IsValidFunction self.now }
    {
        &self.ops
    }

    /// The list of that arena in which they stand in order.
    pub fn list(&self) -> ListId
        ensures { result ≡ 0 }
    {
        self.list
    }

    /// The number of its operations.
    pub fn op_count(&self) -> usize
        ensures { result ≡ length self.now.nodes }
    {
        self.ops.count()
    }

    /// The node of the first operation.
    pub fn first(&self) -> Option<NodeId>
        ensures value { result ≡ first_id self.now.nodes }
        ensures node { IfSome result (IsNode self.now.nodes) }
    {
        self.ops.first(self.list)
    }

    /// The node of the operation behind.
    pub fn next(&self, node: NodeId) -> Option<NodeId>
        requires { IsNode self.now.nodes node }
        ensures value { AtNode self.now.nodes node (λ _ _ back. result ≡ first_id back) }
        ensures node { IfSome result (IsNode self.now.nodes) }
    {
        self.ops.next(node)
    }

    /// The operation in a node.
    pub fn get(&self, node: NodeId) -> &Op
        requires { IsNode self.now.nodes node }
        ensures { AtNode self.now.nodes node (λ _ op _. result.now ≡ op) }
    {
        self.ops.get(node)
    }

    /// Adds a virtual register of this width.
    pub fn add_register(&mut self, width: Width) -> Result<VReg, Memory>
        requires { length self.old.registers < MOST }
        ensures number { IfOk result (λ r. r.0 ≡ length self.old.registers) }
        ensures added { OnOk result (self.new ≡ record self.old { registers = self.old.registers ++ width ∷ [] }) }
        ensures err { OnErr result (self.new ≡ self.old) }
    {
        let number = self.registers.len() as u32;
        self.registers.push(width)?;
        Ok(VReg(number))
    }

    /// Adds a label, which doesn't stand yet.
    pub fn add_label(&mut self) -> Label
        requires { self.old.labels < MOST }
        ensures number { result.0 ≡ self.old.labels }
        ensures added { self.new ≡ record self.old { labels = self.old.labels + 1 } }
        ensures free { IsTrue (not (stands (kinds self.new) result.0)) }
    {
        let label = Label(self.labels);
        self.labels += 1;
        label
    }

    /// Adds an operation behind all others.
    pub fn push(&mut self, op: Op) -> Result<(), Memory>
        requires follows { MayFollow self.old op.kind }
        requires few { length self.old.nodes < MOST }
        ensures pushed { OnOk result (IsPushed self.old self.new op) }
        ensures err { OnErr result (self.new ≡ self.old) }
    {
        match self.ops.push_back(self.list, op) {
            Ok(_) => Ok(()),
            Err(AddFault::Full(_)) => unreachable!(),
            Err(AddFault::Memory(_)) => Err(Memory),
        }
    }

    /// Puts an operation in the place of another, where both only compute a value.
    pub fn replace(&mut self, node: NodeId, op: Op)
        requires node { IsNode self.old.nodes node }
        requires old { AtNode self.old.nodes node (λ _ old _. IsTrue (is_value old.kind)) }
        requires new { IsTrue (is_value op.kind) }
        requires fit { IsTrue (fits self.old.registers self.old.labels op.kind) }
        ensures { AtNode self.old.nodes node (λ front _ back. self.new ≡ record self.old { nodes = front ++ (node, op) ∷ back }) }
    {
        self.ops.set(node, op);
    }

    /// Takes an operation out that only computes a value.
    pub fn remove(&mut self, node: NodeId)
        requires node { IsNode self.old.nodes node }
        requires old { AtNode self.old.nodes node (λ _ old _. IsTrue (is_value old.kind)) }
        ensures { AtNode self.old.nodes node (λ front _ back. self.new ≡ record self.old { nodes = front ++ back }) }
    {
        self.ops.unlink(node);
    }
}
