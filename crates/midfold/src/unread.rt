//! Values that nobody reads, found one by another: where the last operation that reads a register goes, what is computed for it may go.

ghost use Rattle.std.specs.Prelude.{◌≡◌, true, [], ◌∷◌, IfOk, IfSome, OnOk};
ghost use Rattle.midcode.specs.Operation.{listed};
ghost use Rattle.midcode.specs.Function.{kinds, IsNode, AtNode};
ghost use Rattle.midopt.specs.Better.{IsBetterFunction};
ghost use Rattle.midopt.specs.Marks.{value_to};
ghost use Rattle.midopt.specs.Tidy.{HasNoIdle, IsFolded};
ghost use Rattle.midfold.specs.Uses.{changed, changed_all, uses, Covers, is_uncounted};

use linkarena::NodeId;
use midcode::{MidFn, Registers, VReg};
use midopt::{register_of_value, registers_read, remove_idle};
use prunum::Memory;
use std::alloc::Global;

#[derive(Clone, Copy)]
enum Change {
    Raise,
    Lower,
}

/// The count after a change. The greatest number says "so often or more", and stays.
fn changed(change: Change, count: u32) -> u32
    ensures { result ≡ changed change count }
{
    if count == u32::MAX {
        return count;
    }
    match change {
        Change::Raise => count + 1,
        Change::Lower => count.saturating_sub(1),
    }
}

fn change_one(counts: &mut [u32], r: VReg, change: Change)
    ensures { counts.new ≡ changed_all change (r ∷ []) counts.old }
{
    let index = r.0 as usize;
    if index < counts.len() {
        counts[index] = changed(change, counts[index]);
    }
}

fn change_all(counts: &mut [u32], registers: &Registers, change: Change)
    ensures { counts.new ≡ changed_all change (listed registers.now) counts.old }
{
    for r in &registers.registers[..registers.count as usize] {
        change_one(counts, *r, change);
    }
}

/// Counts how often each register is read.
fn count_reads(alloc: Global, f: &MidFn) -> Result<Vec<u32>, Memory>
    ensures { IfOk result (λ v. Covers (uses (kinds f.now)) v.items) }
{
    let count = f.op_count();
    let mut counts = vec![in alloc; 0; f.registers().len()]?;
    let mut at = f.first();
    for _ in 0..count {
        let Some(node) = at else { break };
        change_all(
            counts.as_mut_slice(),
            &registers_read(&f.get(node).kind),
            Change::Raise,
        );
        at = f.next(node);
    }
    Ok(counts)
}

/// The node of a value, and which other one before it is for the same register.
#[derive(Clone, Copy)]
struct Value {
    node: NodeId,
    before: Option<usize>,
}

/// The nodes that only compute a value, in order, and for each register the last of its values.
#[derive(Drop)]
struct Values {
    all: Vec<Value>,
    last: Vec<Option<usize>>,
}

fn add_value(values: &mut Values, node: NodeId, to: Option<VReg>) -> Result<(), Memory> {
    let Some(r) = to else { return Ok(()) };
    let index = r.0 as usize;
    if index < values.last.len() {
        let number = values.all.len();
        values.all.push(Value {
            node,
            before: values.last[index],
        })?;
        values.last[index] = Some(number);
    }
    Ok(())
}

fn find_values(alloc: Global, f: &MidFn) -> Result<Values, Memory> {
    let count = f.op_count();
    let mut values = Values {
        all: Vec::new(alloc),
        last: vec![in alloc; None; f.registers().len()]?,
    };
    let mut at = f.first();
    for _ in 0..count {
        let Some(node) = at else { break };
        add_value(&mut values, node, register_of_value(&f.get(node).kind))?;
        at = f.next(node);
    }
    Ok(values)
}

/// Adds the nodes of the values for a register.
fn push_values(waiting: &mut Vec<NodeId>, values: &Values, r: VReg) -> Result<(), Memory> {
    let Some(last) = values.last.get(r.0 as usize) else {
        return Ok(());
    };
    let mut at = *last;
    for _ in 0..values.all.len() {
        let Some(number) = at else { break };
        let Some(value) = values.all.get(number) else {
            break;
        };
        waiting.push(value.node)?;
        at = value.before;
    }
    Ok(())
}

/// There is a register, and it isn't read.
fn is_uncounted(counts: &[u32], r: Option<VReg>) -> bool
    ensures { result ≡ is_uncounted counts.now r }
{
    match r {
        None => false,
        Some(r) => counts.get(r.0 as usize) == Some(&0),
    }
}

/// Adds the values for those of the registers that nobody reads.
fn push_unread(
    waiting: &mut Vec<NodeId>,
    values: &Values,
    counts: &[u32],
    registers: &Registers,
) -> Result<(), Memory> {
    for r in &registers.registers[..registers.count as usize] {
        if is_uncounted(counts, Some(*r)) {
            push_values(waiting, values, *r)?;
        }
    }
    Ok(())
}

/// The node is still among the function's.
fn is_node(f: &MidFn, node: NodeId) -> bool
    ensures { result ≡ true → IsNode f.now.nodes node }
{
    f.ops().is_live(node)
}

/// The value in a node of the function is read by nobody.
fn is_unread(f: &MidFn, counts: &[u32], node: NodeId) -> bool
    requires { IsNode f.now.nodes node }
    ensures { result ≡ true → AtNode f.now.nodes node (λ _ o _. is_uncounted counts.now (value_to o.kind) ≡ true) }
{
    is_uncounted(counts, register_of_value(&f.get(node).kind))
}

/// The next node that waits whose value nobody reads.
fn next_idle(f: &MidFn, counts: &[u32], waiting: &mut Vec<NodeId>) -> Option<NodeId>
    ensures node { IfSome result (IsNode f.now.nodes) }
    ensures value { IfSome result (λ n. AtNode f.now.nodes n (λ _ o _. is_uncounted counts.now (value_to o.kind) ≡ true)) }
{
    while let Some(node) = waiting.pop() {
        if is_node(f, node) && is_unread(f, counts, node) {
            return Some(node);
        }
    }
    None
}

/// Takes out values that nobody reads, and values that then nobody reads, each in constant time. The function does the same after it, in
/// every program. Where memory is wanting, some may be left.
fn drain(alloc: Global, f: &mut MidFn) -> Result<(), Memory>
    ensures better { IsBetterFunction f.old f.new }

    // No operation can be computed before the run that couldn't be.
    ensures folded { IsFolded (kinds f.old) → IsFolded (kinds f.new) }
{
    let mut counts = count_reads(alloc, f)?;
    let values = find_values(alloc, f)?;
    let mut waiting = Vec::new(alloc);
    for value in &values.all {
        waiting.push(value.node)?;
    }
    while let Some(node) = next_idle(f, counts.as_slice(), &mut waiting) {
        let registers = registers_read(&f.get(node).kind);
        f.remove(node);
        change_all(counts.as_mut_slice(), &registers, Change::Lower);
        push_unread(&mut waiting, &values, counts.as_slice(), &registers)?;
    }
    Ok(())
}

/// Takes out all values that nobody reads, as `remove_idle` does, which has nothing left to do but to see that none is left.
pub fn take_unread(alloc: Global, f: &mut MidFn) -> Result<(), Memory>
    ensures better { IsBetterFunction f.old f.new }
    ensures done { OnOk result (HasNoIdle (kinds f.new)) }
    ensures folded { IsFolded (kinds f.old) → IsFolded (kinds f.new) }
{
    drain(alloc, f)?;
    remove_idle(alloc, f)
}
