//! Why bytes are refused, by what they say alone.
ghost use Rattle.std.specs.Prelude.{◌≡◌};
ghost use Rattle.pim_top.specs.Statuses.{aiger_status, asm_status, blif_status, compiler_status, debug_status, file_status, imply_file_status, imply_status, judgement_status, many_status, net_status, netlist_status, prove_status, share_status, tree_status};
ghost use Rattle.pim_top.specs.declared.judgement.Judgement.TheVariants as judgements;

use crate::Status;
use crate::netlist::NetlistFault;
use crate::vector::VectorText;
use pim_aiger::AigerFault;
use pim_asm::AsmFault;
use pim_blif::BlifFault;
use pim_debug::DebugFault;
use pim_file::FileFault;
use pim_imply::{ImplyFault, ImplyRefusal};
use pim_io::NoMemory;
use pim_life::TreeFault;
use pim_net::NetFault;
use pim_prove::ProveFault;
use pim_share::{ManyFault, ShareFault};

/// Why bytes are refused: the fault of the layer that refused them, as it is, and nothing of the outside.
#[derive(Debug, Drop)]
pub enum Judgement {
    /// The bytes are no netlist.
    Netlist(NetlistFault),
    /// The netlist is not compiled.
    Compile(pim_compile::Refusal),
    /// The bytes are no program file.
    File(FileFault),
    /// The bytes are no assembly.
    Assembly(AsmFault),
    /// The program is not compared with the netlist.
    Prove(ProveFault),
    /// At this vector, the least, the program's outputs aren't the netlist's, and this is the first output that differs.
    Unequal { vector: VectorText, output: u32 },
    /// The program's NORs are not explained as a graph.
    Tree(TreeFault),
    /// The netlist is not compiled to `false` and `imp`.
    Imply(ImplyRefusal),
    /// The bytes are no program of `false` and `imp`.
    ImplyFile(ImplyFault),
    /// The bytes are no program files one after another.
    Parts(ManyFault),
    /// The line of this number, from 1, is no number of a turn.
    Turn(u32),
    /// The programs don't share a row in these turns.
    Share(ShareFault),
    /// The line of this number, from 1, is no vector of the program's inputs.
    Vector(u32),
    /// The command in the line of this number, from 1, is refused.
    Command(u32, DebugFault),
    /// There are more lines of the input than are read.
    TooManyLines,
    /// Memory ran out, which says nothing of the bytes.
    NoMemory,
}

impl From<NetlistFault> for Judgement {
    ghost from_gives = { λ fault judgement. judgement ≡ judgements.Netlist fault };

    fn from(fault: NetlistFault) -> Judgement {
        Judgement::Netlist(fault)
    }
}

impl From<NoMemory> for Judgement {
    ghost from_gives = { λ _ judgement. judgement ≡ judgements.NoMemory };

    fn from(_error: NoMemory) -> Judgement {
        Judgement::NoMemory
    }
}

impl Judgement {
    /// The status that a call with this judgement ends with.
    pub fn status(&self) -> Status
        ensures { result ≡ judgement_status self.now }
    {
        match self {
            Judgement::Netlist(fault) => netlist_status(fault),
            Judgement::Compile(refusal) => compiler_status(*refusal),
            Judgement::File(fault) => file_status(*fault),
            Judgement::Assembly(fault) => asm_status(*fault),
            Judgement::Prove(fault) => prove_status(*fault),
            Judgement::Unequal { .. } => Status::Unequal,
            Judgement::Tree(fault) => tree_status(*fault),
            Judgement::Imply(refusal) => imply_status(*refusal),
            Judgement::ImplyFile(fault) => imply_file_status(*fault),
            Judgement::Parts(fault) => many_status(*fault),
            Judgement::Turn(_) => Status::BadInput,
            Judgement::Share(fault) => share_status(*fault),
            Judgement::Vector(_) => Status::BadInput,
            Judgement::Command(_, fault) => debug_status(*fault),
            Judgement::TooManyLines => Status::TooLarge,
            Judgement::NoMemory => Status::NoMemory,
        }
    }
}

/// The status of a netlist's fault.
fn netlist_status(fault: &NetlistFault) -> Status
    ensures { result ≡ netlist_status fault.now }
{
    match fault {
        NetlistFault::Aiger(fault) => aiger_status(fault),
        NetlistFault::Blif(fault) => blif_status(fault),
    }
}

/// The status of an AIGER file's fault.
fn aiger_status(fault: &AigerFault) -> Status
    ensures { result ≡ aiger_status fault.now }
{
    match fault {
        AigerFault::Net(fault, _) => net_status(fault),
        AigerFault::TooLarge(_) => Status::TooLarge,
        AigerFault::NoMemory => Status::NoMemory,
        _ => Status::BadInput,
    }
}

/// The status of a BLIF file's fault.
fn blif_status(fault: &BlifFault) -> Status
    ensures { result ≡ blif_status fault.now }
{
    match fault {
        BlifFault::Net(fault, _) => net_status(fault),
        BlifFault::TooLarge(_) => Status::TooLarge,
        BlifFault::NoMemory => Status::NoMemory,
        _ => Status::BadInput,
    }
}

/// The status of a netlist that is not well-formed.
fn net_status(fault: &NetFault) -> Status
    ensures { result ≡ net_status fault.now }
{
    match fault {
        NetFault::NoMemory => Status::NoMemory,
        _ => Status::BadInput,
    }
}

/// The status of a refusal of the compiler.
fn compiler_status(refusal: pim_compile::Refusal) -> Status
    ensures { result ≡ compiler_status refusal }
{
    match refusal {
        pim_compile::Refusal::TooFewCells { .. } => Status::TooFewCells,
        pim_compile::Refusal::TooLarge => Status::TooLarge,
        pim_compile::Refusal::NoMemory => Status::NoMemory,
    }
}

/// The status of a program file's fault.
fn file_status(fault: FileFault) -> Status
    ensures { result ≡ file_status fault }
{
    match fault {
        FileFault::TooLarge => Status::TooLarge,
        FileFault::NoMemory => Status::NoMemory,
        _ => Status::BadInput,
    }
}

/// The status of a fault of assembly.
fn asm_status(fault: AsmFault) -> Status
    ensures { result ≡ asm_status fault }
{
    match fault {
        AsmFault::NoMemory => Status::NoMemory,
        _ => Status::BadInput,
    }
}

/// The status of a program that is not compared.
fn prove_status(fault: ProveFault) -> Status
    ensures { result ≡ prove_status fault }
{
    match fault {
        ProveFault::Ports | ProveFault::NotClean(_) => Status::BadInput,
        ProveFault::Inputs | ProveFault::Nodes => Status::TooLarge,
        ProveFault::NoMemory => Status::NoMemory,
    }
}

/// The status of a program that is no graph of NORs.
fn tree_status(fault: TreeFault) -> Status
    ensures { result ≡ tree_status fault }
{
    match fault {
        TreeFault::NotMagic => Status::BadInput,
        TreeFault::NoMemory => Status::NoMemory,
    }
}

/// The status of a refusal of the compiler to `false` and `imp`.
fn imply_status(refusal: ImplyRefusal) -> Status
    ensures { result ≡ imply_status refusal }
{
    match refusal {
        ImplyRefusal::TooFewCells { .. } => Status::TooFewCells,
        ImplyRefusal::TooLarge => Status::TooLarge,
        ImplyRefusal::NoMemory => Status::NoMemory,
    }
}

/// The status of the fault of a program of `false` and `imp`.
fn imply_file_status(fault: ImplyFault) -> Status
    ensures { result ≡ imply_file_status fault }
{
    match fault {
        ImplyFault::TooLarge => Status::TooLarge,
        ImplyFault::NoMemory => Status::NoMemory,
        _ => Status::BadInput,
    }
}

/// The status of a piece of a file that is no program.
fn many_status(fault: ManyFault) -> Status
    ensures { result ≡ many_status fault }
{
    match fault {
        ManyFault::Part { fault, .. } => file_status(fault),
        ManyFault::NoMemory => Status::NoMemory,
    }
}

/// The status of programs that don't share a row.
fn share_status(fault: ShareFault) -> Status
    ensures { result ≡ share_status fault }
{
    match fault {
        ShareFault::OtherTarget(_) | ShareFault::Turn(_) | ShareFault::Missing(_) => {
            Status::BadInput
        }
        ShareFault::TooFewCells { .. } => Status::TooFewCells,
        ShareFault::NoMemory => Status::NoMemory,
    }
}

/// The status of a command's refusal.
fn debug_status(fault: DebugFault) -> Status
    ensures { result ≡ debug_status fault }
{
    match fault {
        DebugFault::NoMemory => Status::NoMemory,
        _ => Status::BadInput,
    }
}
