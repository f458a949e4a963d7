ghost use Rattle.std.specs.Prelude.{◌≡◌, ◌<◌, All, length, IfOk, OnOk};
ghost use Rattle.pim_io.specs.Readings.{Gives};
ghost use Rattle.pim_net.specs.Labels.{IsName};
ghost use Rattle.pim_net.specs.declared.limits.TheConstants.{MAX_SIGNALS};
ghost use Rattle.pim_blif.specs.Signals.{signal_number};
ghost use Rattle.pim_blif.specs.inner.Judging.{named, numbered};

use crate::fault::BlifFault;
use crate::table::NameTable;
use crate::word::Word;
use pim_io::MAX_NAME;
use pim_net::Kind;

/// The number of a name, which is appended where it is new: it has at most `MAX_NAME` bytes, and there are at most
/// `MAX_SIGNALS` signals. Expected constant time, beside the length of the name, which is hashed once.
#[tactic(auto, using(crate::proofs::Found::below_is, crate::proofs::Found::named_some, crate::proofs::Found::named_none))]
pub(crate) fn signal<'a>(names: &mut NameTable<'a>, name: &'a [u8]) -> Result<u32, BlifFault>
    requires { 0 < length name.now }
    ensures exact { Gives BlifFault.NoMemory (λ _. names.new) result (named names.old name.now) }
    ensures number { IfOk result (λ sig. sig ≡ signal_number names.old name.now) }
    ensures below { IfOk result (λ sig. sig < MAX_SIGNALS) }
    ensures labelled { OnOk result (IsName name.now) }
{
    if name.len() > MAX_NAME {
        return Err(BlifFault::TooLarge(Kind::Name));
    }
    match names.number(name)? {
        Some(sig) => Ok(sig),
        None => Err(BlifFault::TooLarge(Kind::Signals)),
    }
}

/// Puts the numbers of names, from left to right, in the place of others.
pub(crate) fn put_signals<'a>(
    names: &mut NameTable<'a>,
    words: &[Word<'a>],
    signals: &mut Vec<u32>,
) -> Result<(), BlifFault>
    ensures exact { Gives BlifFault.NoMemory (λ _. (signals.new.items, names.new)) result (numbered names.old words.now) }
    ensures below { OnOk result (All (λ s. s < MAX_SIGNALS) signals.new.items) }
    ensures count { OnOk result (length signals.new.items ≡ length words.now) }
{
    signals.clear();
    for word in words {
        let sig = signal(names, word.bytes())?;
        signals.push(sig)?;
    }
    Ok(())
}
