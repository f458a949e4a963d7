ghost use Rattle.pim_text.specs.LineLaws.{ReadLines, OneLine, ProgramLines, LackNewlines, InstrWords};

/// The laws of lines, for those who read and print texts: it computes nothing.
pub fn line_laws()
    ensures read { ReadLines }
    ensures one { OneLine }
    ensures program { ProgramLines }
    ensures lack { LackNewlines }
    ensures words { InstrWords }
{}
