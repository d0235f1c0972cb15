ghost use Rattle.std.specs.Prelude.{◌↔◌, All, IsTrue};
ghost use Rattle.elfwrite.specs.Written.{is_defined};

use crate::ranges::{symbols_are_kept, traces_are_kept};
use pruelf::{Sym, SymbolPart};
use prunum::Memory;
use restable::{Trace, build};
use std::alloc::Global;
use std::marker::Model;

/// What stands in an executable besides its image: its symbols, which are defined, and its resource table, one of traces.
#[derive(Debug, Drop)]
pub struct Extra {
    symbols: Vec<Sym>,
    table: Vec<u8>,
}

impl Model for Extra {
    ghost use Rattle.elfwrite.specs.Written.{Besides, IsExtra};

    ghost Value = { Besides };

    ghost view = { λ a. record { symbols = a.symbols.items; table = a.table.items } };

    ghost invariant = { λ a. IsExtra (record { symbols = a.symbols.items; table = a.table.items }) };
}

impl Extra {
    ghost use Rattle.std.specs.Prelude.{◌≡◌, ◌≤◌, [], All, IfOk, IsTrue, length};
    ghost use Rattle.restable.specs.Tables.{table};
    ghost use Rattle.elfwrite.specs.Written.{CanAlwaysBeWritten, IsExtra, is_defined};

    /// No symbols, and the resource table of no traces.
    #[tactic(auto, using(crate::proofs::Few::empty_extra, crate::proofs::Few::empty_fits))]
    pub fn empty(alloc: Global) -> Result<Extra, Memory>
        ensures value { IfOk result (λ x. x ≡ record { symbols = []; table = table [] }) }
        ensures fits { IfOk result (λ x. CanAlwaysBeWritten x) }
    {
        let table = build(alloc, &[])?;
        Ok(Extra::new(Vec::new(alloc), table))
    }

    /// The symbols, each of which is defined, with addresses as values, and the resource table of at most 1,000,000 traces.
    #[tactic(auto, using(crate::proofs::Few::extra_of))]
    pub fn with_traces(alloc: Global, symbols: Vec<Sym>, traces: &[Trace]) -> Result<Extra, Memory>
        requires defined { All (λ s. IsTrue (is_defined s.part)) symbols.items }
        requires few { length traces.now ≤ 1000000 }
        ensures { IfOk result (λ x. x ≡ record { symbols = symbols.items; table = table traces.now }) }
    {
        symbols_are_kept(&symbols);
        traces_are_kept(traces);
        let table = build(alloc, traces)?;
        Ok(Extra::new(symbols, table))
    }

    /// The symbols, whose values are addresses, and the bytes of a resource table.
    pub fn new(symbols: Vec<Sym>, table: Vec<u8>) -> Extra
        requires { IsExtra (record { symbols = symbols.items; table = table.items }) }
        ensures { result ≡ record { symbols = symbols.items; table = table.items } }
    {
        Extra { symbols, table }
    }

    /// The symbols, in order.
    pub fn symbols(&self) -> &[Sym]
        ensures value { result.now ≡ self.now.symbols }
        ensures extra { IsExtra self.now }
    {
        self.symbols.as_slice()
    }

    /// The bytes of the resource table.
    pub fn table(&self) -> &[u8]
        ensures value { result.now ≡ self.now.table }
        ensures extra { IsExtra self.now }
    {
        self.table.as_slice()
    }
}

/// Whether each of the symbols is defined.
pub fn are_defined(symbols: &[Sym]) -> bool
    ensures { IsTrue result ↔ All (λ s. IsTrue (is_defined s.part)) symbols.now }
{
    symbols.iter().all(|s| s.part != SymbolPart::Used)
}
