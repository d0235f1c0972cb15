//! The numbers that fields of an executable may have, by what stands before them.

ghost use Rattle.std.specs.Prelude.{◌≡◌};
ghost use Rattle.pruelf.specs.Layout as layout;

use crate::plan::Plan;
use crate::span::Span;

/// Where the section headers may stand.
pub fn sections_span() -> Span
    ensures { result ≡ layout.sections_span }
{
    Span {
        least: 224,
        most: (1 << 31) - 361,
        unit: 4,
    }
}

pub fn code_span(sections_at: u32) -> Span
    ensures { result ≡ layout.code_span sections_at }
{
    Span {
        least: 0,
        most: u64::from(sections_at.saturating_sub(224)).min(8192),
        unit: 4,
    }
}

pub fn data_at_span() -> Span
    ensures { result ≡ layout.data_at_span }
{
    Span {
        least: 0x10,
        most: 0x1dfc,
        unit: 4,
    }
}

pub fn init_span(sections_at: u32, code: u32, data_at: u32) -> Span
    ensures { result ≡ layout.init_span sections_at code data_at }
{
    let ram = 0x1e00u64.saturating_sub(u64::from(data_at));
    let room = u64::from(sections_at).saturating_sub(224 + u64::from(code));
    Span {
        least: 0,
        most: ram.min(room),
        unit: 1,
    }
}

pub fn memory_span(data_at: u32, init: u32) -> Span
    ensures { result ≡ layout.memory_span data_at init }
{
    Span {
        least: u64::from(init),
        most: 0x1e00u64.saturating_sub(u64::from(data_at)),
        unit: 1,
    }
}

impl Plan {
    pub fn notes_span(&self) -> Span
        ensures { result ≡ layout.notes_span self.now }
    {
        Span {
            least: 0,
            most: u64::from(self.sections_at).saturating_sub(self.notes_offset() + 108),
            unit: 8,
        }
    }

    pub fn table_span(&self) -> Span
        ensures { result ≡ layout.table_span self.now }
    {
        Span {
            least: 16,
            most: u64::from(self.sections_at).saturating_sub(self.table_offset() + 92),
            unit: 52,
        }
    }

    pub fn symbols_span(&self) -> Span
        ensures { result ≡ layout.symbols_span self.now }
    {
        Span {
            least: 16,
            most: u64::from(self.sections_at).saturating_sub(self.symbols_offset() + 76),
            unit: 16,
        }
    }

    pub fn names_span(&self) -> Span
        ensures { result ≡ layout.names_span self.now }
    {
        let room = u64::from(self.sections_at).saturating_sub(self.names_offset() + 72);
        Span {
            least: room.saturating_sub(3).max(u64::from(self.symbols / 16)),
            most: room,
            unit: 1,
        }
    }
}
