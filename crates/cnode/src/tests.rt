use super::*;
use cexpr::{
    Assignment, Call, Inner, Marked, OperandItem, Operation, PlaceItem, PlaceUse, Reached, Taken,
    ValueItem, Whole, constant,
};
use cprogram::{
    Access, AccessKind, CallResult, Conversion, FunctionId, LocalId, Offset, PointerKind, Scalar,
    UnaryOperator,
};
use csyn::{Mark, Sign, Span};
use ctypes::{Base, BaseKind, CType, Qualifiers};
use std::alloc::{AllocError, Global};
use std::test::Fail;

const MARK: Mark = Mark {
    number: 0,
    span: Span { line: 1, column: 1 },
    tokens: 1,
};

fn int(alloc: Global) -> CType {
    let base = Base {
        kind: BaseKind::Int,
        qualifiers: Qualifiers::NONE,
    };
    CType::new(base, Vec::new(alloc))
}

fn access() -> Access {
    Access {
        kind: AccessKind::Plain,
        scalar: Scalar::arithmetic(Sign::Signed),
    }
}

fn item<N>(alloc: Global, kind: N) -> ValueItem<N> {
    ValueItem {
        ctype: int(alloc),
        number: None,
        own: None,
        value: Marked { mark: MARK, kind },
    }
}

fn one(alloc: Global) -> Marked<ValueNode> {
    constant_node(constant(alloc, MARK, 1, Sign::Signed)).value
}

fn operand(alloc: Global) -> OperandItem<ValueNode> {
    OperandItem {
        conversion: Conversion::Same,
        value: one(alloc),
    }
}

fn place<N>(alloc: Global, kind: N) -> PlaceItem<N> {
    PlaceItem {
        ctype: int(alloc),
        reach: AccessKind::Plain,
        is_variable: true,
        place: Marked { mark: MARK, kind },
    }
}

fn local(alloc: Global) -> Marked<PlaceNode> {
    whole_node(place(alloc, Whole::Local(LocalId(0)))).place
}

fn make_operation(alloc: Global) -> Result<(), AllocError> {
    let minus = Operation::Unary(UnaryOperator::Minus, Sign::Signed, operand(alloc));
    let _ = operation_node(alloc, item(alloc, minus))?;
    Ok(())
}

fn make_assignment(alloc: Global) -> Result<(), AllocError> {
    let assign = Assignment::Assign(access(), local(alloc), operand(alloc));
    let _ = assignment_node(alloc, item(alloc, assign))?;
    Ok(())
}

fn make_use(alloc: Global) -> Result<(), AllocError> {
    let address = PlaceUse::Address(PointerKind::Plain, local(alloc));
    let _ = use_node(alloc, item(alloc, address))?;
    Ok(())
}

fn make_taken(alloc: Global) -> Result<(), AllocError> {
    let read = Taken::Read(access(), local(alloc).kind);
    let _ = taken_node(alloc, item(alloc, read))?;
    Ok(())
}

fn make_call(alloc: Global) -> Result<(), AllocError> {
    let arguments = ArgumentNodes::before(alloc, operand(alloc), ArgumentNodes::none())?;
    let call = Call {
        function: FunctionId(0),
        result: CallResult::Void,
        arguments,
    };
    let _ = call_node(item(alloc, call));
    Ok(())
}

fn make_places(alloc: Global) -> Result<(), AllocError> {
    let _ = reached_node(alloc, place(alloc, Reached::Dereference(one(alloc))))?;
    let offset = Offset {
        leaves: 0,
        bytes: 0,
    };
    let whole = local(alloc);
    let _ = inner_node(alloc, place(alloc, Inner { whole, offset }))?;
    Ok(())
}

// With ample memory each node is made.
#[test]
fn nodes_are_made(rt: HostRuntime) -> Result<(), Fail> {
    let alloc = rt.alloc();
    make_operation(alloc)?;
    make_assignment(alloc)?;
    make_use(alloc)?;
    make_taken(alloc)?;
    make_call(alloc)?;
    make_places(alloc)?;
    Ok(())
}
