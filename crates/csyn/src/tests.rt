ghost use Rattle.std.specs.Prelude.{◌≡◌, IfOk};
ghost use Rattle.csyn.specs.Levels.{expr_levels, label_levels, stmt_levels, switch_items_levels};

use super::*;
use std::alloc::{AllocError, Global};
use std::test::Fail;

#[test]
fn names(rt: HostRuntime) -> Result<(), Fail> {
    let fault = SourceFault::Broken {
        span: Span {
            line: 12,
            column: 7,
        },
        cause: Cause::S21,
    };
    assert_eq!(rt; format!(in rt.alloc(); "{fault}")?.as_str(), "12:7 S21");
    assert_eq!(rt; Cause::S25.name(), "S25");
    Ok(())
}

fn mark(number: u32) -> Mark {
    Mark {
        number,
        span: Span { line: 1, column: 1 },
        tokens: 1,
    }
}

fn name(alloc: Global, number: u32) -> Result<Box<Expr>, AllocError>
    ensures { IfOk result (λ e. expr_levels e.value ≡ 1) }
{
    let text = Text::new(Vec::from_slice(alloc, b"x")?);
    let kind = ExprKind::Name(text);
    let mark = mark(number);
    Ok(Box::new(alloc, Expr { mark, kind })?)
}

// `case x:`
fn case(alloc: Global) -> Result<Label, AllocError>
    ensures { IfOk result (λ label. label_levels label ≡ 2) }
{
    let kind = LabelKind::Case(name(alloc, 1)?);
    Ok(Label {
        mark: mark(2),
        kind,
    })
}

// `case x: default:`
fn labels(alloc: Global) -> Result<SwitchItems, AllocError>
    ensures { IfOk result (λ items. switch_items_levels items ≡ 2) }
{
    let end = Box::new(alloc, SwitchItems::End)?;
    let default = Label {
        mark: mark(3),
        kind: LabelKind::Default,
    };
    let rest = Box::new(alloc, SwitchItems::Label(default, end))?;
    Ok(SwitchItems::Label(case(alloc)?, rest))
}

// `switch (x) { case x: default: }`
fn choice(alloc: Global) -> Result<Stmt, AllocError>
    ensures { IfOk result (λ s. stmt_levels s ≡ 3) }
{
    let items = labels(alloc)?;
    let kind = StmtKind::Switch(name(alloc, 0)?, items);
    Ok(Stmt {
        mark: mark(4),
        kind,
    })
}

#[test]
fn a_label_is_a_node(rt: HostRuntime) -> Result<(), Fail> {
    let statement = choice(rt.alloc())?;
    assert_eq!(rt; statement.mark.number, 4);
    Ok(())
}

#[test]
fn readers(rt: HostRuntime) -> Result<(), Fail> {
    let tree = Tree::new(Units::End, 25, 13, Span { line: 2, column: 1 });
    assert!(rt; matches!(tree.units(), Units::End));
    assert_eq!(rt; tree.tokens(), 25);
    assert_eq!(rt; tree.nodes(), 13);
    assert_eq!(rt; tree.end().line, 2);
    Ok(())
}
