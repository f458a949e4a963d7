ghost use Rattle.pim_mig.specs.Laws.{NodeLaws};

/// The law of nodes that are made, for those who make a graph by `node`: it computes nothing.
pub fn nodes_have_laws()
    ensures { NodeLaws }
{}
