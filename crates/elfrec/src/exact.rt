ghost use Rattle.elfrec.specs.Header.{header_format, HeaderFits};
ghost use Rattle.elfrec.specs.Record.{IsExact};
ghost use Rattle.elfrec.specs.Rela.{rela_format, RelaFits};
ghost use Rattle.elfrec.specs.Section.{section_format, SectionFits};
ghost use Rattle.elfrec.specs.Segment.{segment_format, SegmentFits};
ghost use Rattle.elfrec.specs.Symbol.{symbol_format, SymbolFits};

/// A law of the records: what is read of bytes has these bytes again, and what is written is read again.
pub fn records_are_exact()
    ensures header { IsExact header_format HeaderFits }
    ensures segment { IsExact segment_format SegmentFits }
    ensures section { IsExact section_format SectionFits }
    ensures symbol { IsExact symbol_format SymbolFits }
    ensures rela { IsExact rela_format RelaFits }
{}
