//! The command `propose`, whose input is lines of digits: a ledger, a header, and the calls of which a block is made.

ghost use Rattle.std.specs.Prelude.{◌≡◌, ◌≢◌, ◌++◌, IfOk, OnOk, string_bytes};
ghost use Rattle.std.specs.List.{flat_map};
ghost use Rattle.avm_ledger.specs.declared.header.Profile.TheVariants.{Three};
ghost use Rattle.avm_node.specs.ProposeCommands.{IsPoolReply, IsProposeReply, left_line, pool_reply, proposal_reply};
ghost use Rattle.avm_node.specs.ProposeShown.{input_shown, reply_shown as propose_shown};
ghost use Rattle.avm_input.specs.Answers.{IsBegun, IsWritten};
ghost use Rattle.avm_input.specs.Replies.{failed};
ghost use Rattle.avm_input.specs.Shown.{reply_shown};
ghost use Rattle.avm_node.specs.WorkerSets.{AreWorkerSets};

use crate::propose_input::{ProposeInput, propose_input};
use avm_block::Block;
use avm_commands::leak_at_exit;
use avm_input::{DONE, REFUSED, Reply, refusal_reply, write_digits_reply};
use avm_ledger::Base;
use avm_ops::{Op, Ops};
use avm_pool::{Draft, OpenGate, PoolFault, Proposal, ThreadSets, propose_on};
use std::alloc::{AllocError, Global};
use std::io::Write;
use std::sync::{Arc, Wait};
use std::thread::Threads;
use teal_value::Failure;

/// What is answered: the digits of a block's bytes, none where there is no block, then a text, and an exit status. The digits are
/// twice as long as the bytes, and are made as they are written.
#[derive(Drop)]
pub struct ProposeReply {
    pub block: Vec<u8>,
    pub text: Vec<u8>,
    pub status: u8,
}

impl ProposeReply {
    /// A reply without a block.
    pub fn without_block(alloc: Global, reply: Reply) -> ProposeReply
        ensures { propose_shown result ≡ reply_shown reply }
    {
        ProposeReply {
            block: Vec::new(alloc),
            text: reply.text,
            status: reply.status,
        }
    }

    /// Writes it, and gives its status, or that of a failed write, before which a beginning of it may have been written.
    pub fn write<W: Write>(&self, alloc: Global, writer: &mut W) -> u8
        ensures written { result ≢ failed → IsWritten (propose_shown self.now)
            (W.contents writer.old) (W.contents writer.new) result }
        ensures begun { IsBegun (propose_shown self.now)
            (W.contents writer.old) (W.contents writer.new) }
    {
        let (block, text) = (self.block.as_slice(), self.text.as_slice());
        write_digits_reply(alloc, writer, block, text, self.status)
    }
}

/// What `propose` answers to its input, by a worker of each set.
pub fn propose_reply<R: Threads + Wait + Sync, O: Op, const EXITS: bool>(
    rt: &R,
    alloc: Global,
    input: Vec<u8>,
    sets: Vec<Ops<O>>,
    own: Ops<O>,
) -> Result<ProposeReply, AllocError>
    requires sets { AreWorkerSets O.opcode sets.items own }
    ensures { IfOk result (λ reply. IsProposeReply input.items (propose_shown reply)) }
{
    match propose_input(rt, alloc, sets.len(), input) {
        Ok(read) => pool_answer::<R, O, EXITS>(rt, alloc, read, sets, own),
        Err(failure) => {
            let reply = refusal_reply(alloc, failure.into_fault()?)?;
            Ok(ProposeReply::without_block(alloc, reply))
        }
    }
}

/// The block that the workers make of what was read, or why there is none.
fn pool_answer<R: Threads + Wait + Sync, O: Op, const EXITS: bool>(
    rt: &R,
    alloc: Global,
    read: ProposeInput,
    sets: Vec<Ops<O>>,
    own: Ops<O>,
) -> Result<ProposeReply, AllocError>
    requires profile { read.header.profile ≡ Three }
    requires sets { AreWorkerSets O.opcode sets.items own }
    ensures { IfOk result (λ reply. IsPoolReply (input_shown read) (propose_shown reply)) }
{
    let ProposeInput {
        base,
        header,
        calls,
    } = read;
    let base = Arc::new(alloc, base)?;
    let draft = Draft {
        base: &base,
        header,
        calls,
    };
    let sets = ThreadSets { workers: sets, own };
    match propose_on::<_, _, _, EXITS>(rt, alloc, draft, sets, &OpenGate) {
        Ok(proposal) => {
            leak_at_exit::<Arc<Base>, EXITS>(base);
            proposal_reply::<EXITS>(alloc, proposal)
        }
        Err(Failure::Fault(fault)) => {
            let reply = pool_reply(alloc, fault)?;
            Ok(ProposeReply::without_block(alloc, reply))
        }
        Err(Failure::Memory) => Err(AllocError),
    }
}

/// The bytes of a block, and a text of the calls that it leaves.
fn proposal_reply<const EXITS: bool>(
    alloc: Global,
    proposal: Proposal,
) -> Result<ProposeReply, AllocError>
    ensures { IfOk result (λ reply. propose_shown reply ≡ proposal_reply proposal) }
{
    let Proposal {
        block,
        bytes,
        left,
        ..
    } = proposal;
    leak_at_exit::<Block, EXITS>(block);
    let mut text = String::from_str(alloc, "\n")?;
    add_left(alloc, &mut text, left.as_slice())?;
    Ok(ProposeReply {
        block: bytes,
        text: text.into_bytes(),
        status: DONE,
    })
}

/// Adds a line for each call that is left.
fn add_left(alloc: Global, text: &mut String, left: &[u32]) -> Result<(), AllocError>
    ensures { OnOk result
        (string_bytes text.new ≡ string_bytes text.old ++ flat_map left_line left.now) }
{
    for number in left {
        let line = format!(in alloc; "left {number}\n")?;
        text.push_str(line.as_str())?;
    }
    Ok(())
}

/// Why there is no block.
fn pool_reply(alloc: Global, fault: PoolFault) -> Result<Reply, AllocError>
    ensures { IfOk result (λ reply. reply_shown reply ≡ pool_reply fault) }
{
    let name = fault.name();
    let text = format!(in alloc; "refused pool {name}\n")?;
    Ok(Reply {
        text: text.into_bytes(),
        status: REFUSED,
    })
}
