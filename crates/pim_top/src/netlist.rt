//! Netlists of every format.
ghost use Rattle.std.specs.Prelude.{◌≡◌, ◌≤◌, ◌⊎◌, Ok, Err, IfErr, IfOk, length};
ghost use Rattle.pim_net.specs.Netlist.{draft_of};
ghost use Rattle.pim_aiger.specs.Files.{net_of as aiger_net_of};
ghost use Rattle.pim_blif.specs.Files.{net_of as blif_net_of};
ghost use Rattle.pim_top.specs.Netlists.{net_of};
ghost use Rattle.pim_top.specs.Statuses.{netlist_status};
ghost use Rattle.pim_top.specs.declared.status.Status.TheVariants as statuses;

use pim_aiger::{AigerFault, is_aiger};
use pim_blif::BlifFault;
use pim_io::MAX_PROGRAM;
use pim_net::Net;
use std::alloc::Global;

/// Why bytes are no netlist, in the terms of their format.
#[derive(Debug, Drop)]
pub enum NetlistFault {
    Aiger(AigerFault),
    Blif(BlifFault),
}

/// The netlist of bytes, or their first fault: they are AIGER where they begin with one of its tags, and otherwise BLIF.
#[tactic(auto, unfolding(crate::specs::Netlists::net_of))]
pub fn read(alloc: Global, bytes: &[u8]) -> Result<Net, NetlistFault>
    requires { length bytes.now ≤ MAX_PROGRAM }
    ensures net { IfOk result (λ net. net_of bytes.now ≡ Ok (draft_of net)) }
    ensures fault { IfErr result (λ fault. (netlist_status fault ≡ statuses.NoMemory) ⊎ (net_of bytes.now ≡ Err fault)) }
{
    if is_aiger(bytes) {
        match pim_aiger::read(alloc, bytes) {
            Ok(net) => Ok(net),
            Err(fault) => Err(NetlistFault::Aiger(fault)),
        }
    } else {
        match pim_blif::read(alloc, bytes) {
            Ok(net) => Ok(net),
            Err(fault) => Err(NetlistFault::Blif(fault)),
        }
    }
}
