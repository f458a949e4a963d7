ghost use Rattle.std.specs.Prelude.{◌≡◌, ◌≤◌, ◌⊎◌, IfOk};
ghost use Rattle.pim_io.specs.Readings.{Gives};
ghost use Rattle.pim_net.specs.Netlist.{draft_of};
ghost use Rattle.pim_net.specs.Faults.{signals_of};
ghost use Rattle.pim_blif.specs.Files.{labels_of};
ghost use Rattle.pim_net.specs.declared.limits.TheConstants.{MAX_EQUATIONS};
ghost use Rattle.pim_blif.specs.inner.Readers.{words_used};
ghost use Rattle.pim_blif.specs.inner.Judging.{outcome};

use super::Reader;
use crate::fault::BlifFault;
use crate::table::NameTable;
use pim_io::NoMemory;
use pim_net::{Names, Net, NetFault};
use std::alloc::Global;

/// The labels of signals, by their numbers.
fn labels(alloc: Global, names: &NameTable, signals: &[u32]) -> Result<Names, NoMemory>
    ensures { IfOk result (λ labels. labels ≡ labels_of names.now signals.now) }
{
    let mut labels = Names::new(alloc);
    for sig in signals {
        labels.push(names.name(*sig))?;
    }
    Ok(labels)
}

/// The fault of a netlist with the labels of the signals that it names, where there is memory for them.
fn labelled(alloc: Global, names: &NameTable, fault: NetFault) -> BlifFault
    ensures named { (result ≡ BlifFault.NoMemory) ⊎ (result ≡ BlifFault.Net fault (labels_of names.now (signals_of fault))) }
    ensures memory { fault ≡ NetFault.NoMemory → result ≡ BlifFault.NoMemory }
{
    if let NetFault::NoMemory = fault {
        return BlifFault::NoMemory;
    }
    match labels(alloc, names, fault.signals()) {
        Ok(labels) => BlifFault::Net(fault, labels),
        Err(_) => BlifFault::NoMemory,
    }
}

impl<'a> Reader<'a> {
    /// The netlist of the statements that were read, where there was one and the netlist has no fault.
    #[tactic(auto, unfolding(crate::specs::Files::judged_net))]
    pub(crate) fn net(mut self) -> Result<Net, BlifFault>
        requires { words_used self ≤ MAX_EQUATIONS }
        ensures { Gives BlifFault.NoMemory draft_of result (outcome self.entry) }
    {
        if !self.started {
            return Err(BlifFault::Syntax(1));
        }
        self.close_cover()?;
        match Net::check(self.alloc, self.draft) {
            Ok(net) => Ok(net),
            Err(fault) => Err(labelled(self.alloc, &self.names, fault)),
        }
    }
}
