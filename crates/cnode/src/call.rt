//! Calls and their arguments.

ghost use Rattle.std.specs.Prelude.{◌≡◌, IfOk};
ghost use Rattle.cnode.specs.Made.{argument_before, call_kind, value_with};

use crate::boxes::boxed_operand;
use crate::kind::{ArgumentNodes, ValueNode};
use cexpr::{Call, Marked, OperandItem, ValueItem};
use cprogram::{Operands, ValueKind};
use std::alloc::{AllocError, Global};

impl ArgumentNodes {
    /// None at all.
    pub fn none() -> ArgumentNodes
        ensures { result ≡ Operands.End }
    {
        ArgumentNodes {
            operands: Operands::End,
        }
    }

    /// One argument before others.
    pub fn before(
        alloc: Global,
        argument: OperandItem<ValueNode>,
        rest: ArgumentNodes,
    ) -> Result<ArgumentNodes, AllocError>
        ensures { IfOk result (λ all. all ≡ argument_before argument rest) }
    {
        let first = boxed_operand(alloc, argument)?;
        let rest = Box::new(alloc, rest.operands)?;
        Ok(ArgumentNodes {
            operands: Operands::More(first, rest),
        })
    }
}

/// The node of a call.
pub fn call_node(item: ValueItem<Call<ArgumentNodes>>) -> ValueItem<ValueNode>
    ensures { result ≡ value_with call_kind item }
{
    let Marked { mark, kind } = item.value;
    let Call {
        function,
        result,
        arguments,
    } = kind;
    let kind = ValueKind::Call(function, result, arguments.operands);
    ValueItem {
        ctype: item.ctype,
        number: item.number,
        own: item.own,
        value: Marked {
            mark,
            kind: ValueNode { kind },
        },
    }
}
